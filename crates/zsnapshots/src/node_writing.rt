//! Nodes, written at the end of bytes. Each function says too that what it writes fits.

ghost use Rattle.std.specs.Prelude.{◌≡◌, ◌++◌, OnOk};
ghost use Rattle.zcodec.specs.Forms.{both};
ghost use Rattle.zwire.specs.Fields.{three, four, five};
ghost use Rattle.zwire.specs.records.Fields.{long};
ghost use Rattle.zsnapshots.specs.Rows.{zxids_of, counts_of, marks_of, term as term_form, node as node_form};
ghost use Rattle.zsnapshots.specs.Rows.{node_text};

use crate::limits::CONTAINER;
use std::alloc::{AllocError, Global};
use zcodec::put_u64;
use zpath::Path;
use ztree::{Node, Term};
use zwire::records::{put_content, put_path};

/// Writes a node with its path.
#[tactic(auto, unfolding(crate::specs::Rows::node_text))]
pub(crate) fn put_node_text(
    alloc: Global,
    out: &mut Vec<u8>,
    path: &Path,
    node: &Node,
) -> Result<(), AllocError>
    ensures text { OnOk result
        (out.new.items ≡ out.old.items ++ node_text.spell (path.now, node.now)) }
    ensures fits { OnOk result (node_text.Fits (path.now, node.now)) }
{
    put_path(alloc, out, path)?;
    put_node(out, node)
}

// Writes a node.
#[tactic(auto, unfolding(crate::specs::Rows::node))]
fn put_node(out: &mut Vec<u8>, node: &Node) -> Result<(), AllocError>
    ensures text { OnOk result (out.new.items ≡ out.old.items ++ node_form.spell node.now) }
    ensures fits { OnOk result (node_form.Fits node.now) }
{
    put_zxids(out, node)?;
    put_counts(out, node)?;
    put_marks(out, node)?;
    put_term(out, node.term)?;
    put_content(out, &node.bytes)
}

// Writes its three zxids.
fn put_zxids(out: &mut Vec<u8>, node: &Node) -> Result<(), AllocError>
    ensures text { OnOk result (out.new.items ≡ out.old.items ++ three.spell (zxids_of node.now)) }
    ensures fits { OnOk result (three.Fits (zxids_of node.now)) }
{
    put_u64(out, node.czxid.number())?;
    put_u64(out, node.mzxid.number())?;
    put_u64(out, node.pzxid.number())
}

// Writes its two times and its three versions.
fn put_counts(out: &mut Vec<u8>, node: &Node) -> Result<(), AllocError>
    ensures text { OnOk result (out.new.items ≡ out.old.items ++ five.spell (counts_of node.now)) }
    ensures fits { OnOk result (five.Fits (counts_of node.now)) }
{
    put_u64(out, node.ctime)?;
    put_later_counts(out, node)
}

// Writes those of them that come after the first.
fn put_later_counts(out: &mut Vec<u8>, node: &Node) -> Result<(), AllocError>
    ensures text { OnOk result
        (out.new.items ≡ out.old.items ++ four.spell (counts_of node.now).1) }
    ensures fits { OnOk result (four.Fits (counts_of node.now).1) }
{
    put_u64(out, node.mtime)?;
    put_u64(out, node.version)?;
    put_u64(out, node.cversion)?;
    put_u64(out, node.aversion)
}

// Writes its owner and its counter.
fn put_marks(out: &mut Vec<u8>, node: &Node) -> Result<(), AllocError>
    ensures text { OnOk result
        (out.new.items ≡ out.old.items ++ (both long long).spell (marks_of node.now)) }
    ensures fits { OnOk result ((both long long).Fits (marks_of node.now)) }
{
    put_u64(out, node.owner)?;
    put_u64(out, node.seq)
}

// Writes its term.
#[tactic(auto, unfolding(crate::specs::Rows::term))]
fn put_term(out: &mut Vec<u8>, term: Term) -> Result<(), AllocError>
    ensures text { OnOk result (out.new.items ≡ out.old.items ++ term_form.spell term) }
    ensures fits { OnOk result (term_form.Fits term) }
{
    match term {
        Term::Unlimited => put_u64(out, 0),
        Term::Timed(ttl) => put_u64(out, ttl.ticks()),
        Term::Container => put_u64(out, CONTAINER),
    }
}
