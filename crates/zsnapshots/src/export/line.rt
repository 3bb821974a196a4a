//! The line that makes a node.

ghost use Rattle.std.specs.Prelude.{OnOk};
ghost use Rattle.std.specs.List.{flat_map};
ghost use Rattle.zscript_text.specs.LineWords.{data_text};
ghost use Rattle.zscript_text.specs.Texts.{Writes};
ghost use Rattle.ztree.specs.declared.term.Term.TheVariants.{Timed};
ghost use Rattle.zsnapshots.specs.export.Export.{create_line, ended, kind_text, lines_for, root_lines, set_line};

use base64::engine::general_purpose::STANDARD;
use zalloc::Memory;
use zpath::Path;
use ztree::{Node, Term};

/// Appends the line that makes a node, with its end, or nothing if it has none.
pub(crate) fn write_lines(path: &Path, node: &Node, out: &mut String) -> Result<(), Memory>
    ensures { OnOk result (Writes out.old out.new
        (flat_map ended (lines_for (path.now, node.now)))) }
{
    if path.names().is_empty() {
        return write_root(node.bytes.as_slice(), out);
    }
    if node.owner != 0 {
        return Ok(());
    }
    write_create(path, node, out)?;
    out.push_str("\n")?;
    Ok(())
}

// Appends the line that writes the root's data, if it has any.
fn write_root(bytes: &[u8], out: &mut String) -> Result<(), Memory>
    ensures { OnOk result (Writes out.old out.new (flat_map ended (root_lines bytes.now))) }
{
    if bytes.is_empty() {
        return Ok(());
    }
    write_set(bytes, out)?;
    out.push_str("\n")?;
    Ok(())
}

// Appends the line that writes the root's data.
#[tactic(auto, unfolding(crate::specs::export::Export::set_line))]
fn write_set(bytes: &[u8], out: &mut String) -> Result<(), Memory>
    ensures { OnOk result (Writes out.old out.new (set_line bytes.now)) }
{
    write!(out, "1 set / any ")?;
    write_data(bytes, out)?;
    Ok(())
}

// Appends the line that creates a node.
#[tactic(auto, unfolding(crate::specs::export::Export::create_line))]
fn write_create(path: &Path, node: &Node, out: &mut String) -> Result<(), Memory>
    ensures { OnOk result (Writes out.old out.new (create_line path.now node.now)) }
{
    write!(out, "1 create {path} ")?;
    write_kind(node.term, out)?;
    out.push_str(" ")?;
    write_data(node.bytes.as_slice(), out)
}

// Appends the kind of a node of this term that no session owns.
fn write_kind(term: Term, out: &mut String) -> Result<(), Memory>
    ensures { OnOk result (Writes out.old out.new (kind_text term)) }
{
    match term {
        Term::Unlimited => out.push_str("p")?,
        Term::Timed(ttl) => write_ttl(ttl.ticks(), out)?,
        Term::Container => out.push_str("c")?,
    }
    Ok(())
}

// Appends the kind of a node that has this many ticks to live.
fn write_ttl(ticks: u64, out: &mut String) -> Result<(), Memory>
    ensures { OnOk result (Writes out.old out.new (kind_text (Timed ticks))) }
{
    write!(out, "t:{ticks}")?;
    Ok(())
}

// Appends data: `-` for no bytes, else base64.
fn write_data(bytes: &[u8], out: &mut String) -> Result<(), Memory>
    ensures { OnOk result (Writes out.old out.new (data_text bytes.now)) }
{
    if bytes.is_empty() {
        out.push_str("-")?;
        return Ok(());
    }
    STANDARD.encode_string(bytes, out)?;
    Ok(())
}
