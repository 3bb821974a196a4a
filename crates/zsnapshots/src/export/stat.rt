//! What is printed of a folder, and of what an export leaves out.

ghost use Rattle.std.specs.Prelude.{◌≡◌, OnOk};
ghost use Rattle.zscript_text.specs.Texts.{Writes};
ghost use Rattle.zsnapshots.specs.export.Texts.{around, left_out_text, stat_text};

use crate::export::tally::TreeCounts;
use zalloc::Memory;

/// How large a folder is.
#[derive(Clone, Copy, Debug, PartialEq, Eq)]
pub struct FolderStat {
    /// The counts of its tree.
    pub tree: TreeCounts,
    /// The bytes of its journal.
    pub journal: u64,
    /// The bytes of the snapshot with which the journal's text begins, or 0.
    pub snapshot: u64,
}

/// Appends what an export of a tree leaves out, a line for each kind.
pub fn write_left_out(counts: &TreeCounts, out: &mut String) -> Result<(), Memory>
    ensures { OnOk result (Writes out.old out.new (left_out_text counts.now)) }
{
    let c = counts;
    write_around(
        "zk: export: ephemeral nodes left out: ",
        c.ephemerals,
        "\n",
        out,
    )?;
    write_around("zk: export: sessions left out: ", c.sessions, "\n", out)?;
    let zxids = "zk: export: versions begin again at 0, zxids too (the last is ";
    write_around(zxids, c.changes, ")", out)?;
    write_around(", and ticks (it is ", c.ticks, ")\n", out)?;
    let counters = "zk: export: counters of sequential names begin again at 0 (above 0: ";
    write_around(counters, c.counters, "): a name may be taken\n", out)?;
    Ok(())
}

/// Appends the numbers of a folder, a line each.
pub fn write_stat(stat: &FolderStat, out: &mut String) -> Result<(), Memory>
    ensures { OnOk result (Writes out.old out.new (stat_text stat.now)) }
{
    write_around("nodes: ", stat.tree.nodes, "\n", out)?;
    write_around("bytes of data: ", stat.tree.bytes, "\n", out)?;
    write_around("sessions: ", stat.tree.sessions, "\n", out)?;
    write_around("changes: ", stat.tree.changes, "\n", out)?;
    write_around("bytes of the journal: ", stat.journal, "\n", out)?;
    let snapshot = "bytes of the snapshot with which it begins: ";
    write_around(snapshot, stat.snapshot, "\n", out)?;
    Ok(())
}

// Appends a number, with a text before it and one after it.
#[tactic(auto, unfolding(crate::specs::export::Texts::around))]
fn write_around(front: &str, number: u64, back: &str, out: &mut String) -> Result<(), Memory>
    ensures { OnOk result (Writes out.old out.new (around front.now number back.now)) }
{
    write!(out, "{front}{number}{back}")?;
    Ok(())
}
