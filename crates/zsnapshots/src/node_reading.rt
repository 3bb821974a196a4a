//! Nodes, read from the front of bytes with what follows them.

ghost use Rattle.zcodec.specs.Readers.{Gives, Reads};
ghost use Rattle.zsnapshots.specs.Rows.{node, node_text, term};

use crate::limits::CONTAINER;
use std::alloc::Global;
use zcodec::{Fault, ReadError, u64_at};
use zpath::Path;
use ztree::{Node, Term, Ttl, Zxid};
use zwire::records::{content_of, path_of};
use zwire::{five_at, three_at};

/// Reads a node with its path.
#[tactic(auto, unfolding(crate::specs::Rows::node_text))]
pub(crate) fn node_text_of(alloc: Global, bytes: &[u8]) -> Result<(Path, Node, &[u8]), ReadError>
    ensures { Gives (λ x. ((x.0, x.1), x.2.now)) result (node_text.read bytes.now) }
{
    let (path, rest) = path_of(alloc, bytes)?;
    let (node, rest) = node_of(alloc, rest)?;
    Ok((path, node, rest))
}

// Reads a node.
#[tactic(auto, unfolding(crate::specs::Rows::node))]
fn node_of(alloc: Global, bytes: &[u8]) -> Result<(Node, &[u8]), ReadError>
    ensures { Gives (λ x. (x.0, x.1.now)) result (node.read bytes.now) }
{
    let (czxid, mzxid, pzxid, rest) = three_at(bytes)?;
    let (ctime, mtime, version, cversion, aversion, rest) = five_at(rest)?;
    let (owner, rest) = u64_at(rest)?;
    let (seq, rest) = u64_at(rest)?;
    let (term, rest) = match term_of(rest) {
        Ok(read) => read,
        Err(fault) => return Err(ReadError::Fault(fault)),
    };
    let (content, rest) = content_of(alloc, rest)?;
    let node = Node {
        bytes: content,
        czxid: Zxid::new(czxid),
        mzxid: Zxid::new(mzxid),
        pzxid: Zxid::new(pzxid),
        ctime,
        mtime,
        version,
        cversion,
        aversion,
        owner,
        seq,
        term,
    };
    Ok((node, rest))
}

// Reads a term.
#[tactic(auto, unfolding(crate::specs::Rows::term))]
fn term_of(bytes: &[u8]) -> Result<(Term, &[u8]), Fault>
    ensures { Reads (λ x. (x.0, x.1.now)) result (term.read bytes.now) }
{
    let (number, rest) = u64_at(bytes)?;
    if number == 0 {
        return Ok((Term::Unlimited, rest));
    }
    if number == CONTAINER {
        return Ok((Term::Container, rest));
    }
    match Ttl::new(number) {
        Some(ttl) => Ok((Term::Timed(ttl), rest)),
        None => Err(Fault::Invalid),
    }
}
