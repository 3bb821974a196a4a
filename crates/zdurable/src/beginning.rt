//! Compaction of the parts of a journal before its last one.
//!
//! # Why
//! The last part continues from the checksum of those before it. So the new file has to end with the
//! sum of the old one. The sum in its head is computed backwards from there: so all chunks are in
//! memory before the first one is written.

ghost use Rattle.std.specs.Prelude.{◌≡◌, List, ℕ, IfOk, OnOk, map};
ghost use Rattle.zjournal.specs.Blocks.{AreTexts};
ghost use Rattle.zjournal.specs.Device.{LeavesOnly};
ghost use Rattle.zjournal.specs.Journal.{IsAtRest, device_of, sum_of};
ghost use Rattle.zjournal.specs.Journal as file;
ghost use Rattle.zjournal.specs.Scan.{joined};
ghost use Rattle.zdurable.specs.Compaction.{IsOldOrReplaces, RestsAfter};
ghost use Rattle.zsnapshots.specs.folder.Texts.{snapshot_text, IsTextOf};

use crate::fault::DurableFault;
use std::alloc::Global;
use zalloc::Memory;
use zjournal::{Device, Journal, start_before};
use zsnapshots::folder::Compaction;
use ztree_service::LocalTree;

/// Writes the text of the tree beside the journal's file, and replaces that file with it. The
/// checksum of the next batch continues from the same sum as before. At each moment a crash leaves
/// the old file, or one that can take its place.
pub(crate) fn compact_beginning<D: Device>(
    alloc: Global,
    journal: &mut Journal<D>,
    tree: &LocalTree,
) -> Result<(), DurableFault>
    requires sound { file.IsSound D.seen D.may_leave journal.old }
    requires open { file.IsOpen journal.old }
    ensures kept { (servers : ℕ) (batches : List (List ℕ))
        → IsAtRest D.seen D.may_leave servers batches journal.old
        → OnOk result (RestsAfter D.seen D.may_leave servers tree.now.tree journal.new) }
    ensures sum { OnOk result (sum_of journal.new ≡ sum_of journal.old) }
    ensures any_moment { (servers : ℕ) (batches : List (List ℕ))
        → IsAtRest D.seen D.may_leave servers batches journal.old
        → IsTextOf tree.now.tree (joined batches)
        → LeavesOnly D.moment D.left_since (device_of journal.old) (device_of journal.new)
        (IsOldOrReplaces servers tree.now.tree (D.seen (device_of journal.old))) }
    ensures open { OnOk result (file.IsOpen journal.new) }
{
    let chunks = chunks_of(alloc, tree)?;
    let texts = chunks.as_slice();
    let start = start_before(journal.sum(), texts);
    journal.begin_renewal(start)?;
    for text in texts {
        journal.put_renewed(text)?;
    }
    journal.end_renewal()?;
    Ok(())
}

// Returns the text of the tree, as chunks.
fn chunks_of(alloc: Global, tree: &LocalTree) -> Result<Vec<Vec<u8>>, Memory>
    ensures text { IfOk result (λ chunks.
        joined (map (λ c. c.items) chunks.items) ≡ snapshot_text tree.now.tree) }
    ensures keeps { IfOk result (λ chunks.
        IsTextOf tree.now.tree (joined (map (λ c. c.items) chunks.items))) }
    ensures no_zero { IfOk result (λ chunks. AreTexts (map (λ c. c.items) chunks.items)) }
{
    let mut text = Compaction::new(alloc, tree)?;
    let mut chunks = Vec::new(alloc);
    while let Some(chunk) = text.next_chunk()? {
        chunks.push(chunk)?;
    }
    Ok(chunks)
}
