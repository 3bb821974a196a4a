//! Compaction of a journal: a new file with the tree alone replaces the old one.
//!
//! # Why
//! A compaction takes seconds where there are many nodes. So a service makes none while it serves.
//! It begins a new part of its file, and another process compacts the parts before it (`Stored`).
//! Beginning a part at four times the size of the tree means that compaction costs at most a third
//! of what the changes cost.
//!
//! A full disk may have room for changes, but none for a part. So where a part can't be begun, the
//! service continues with the one that it has. A trial at each length would cost too much: it is
//! tried again once the journal has grown by as much as half of what it had.

ghost use Rattle.std.specs.Prelude.{◌≡◌, ◌<◌, ◌≤◌, List, ℕ};
ghost use Rattle.std.specs.Prelude.{IfOk, OnOk, OnErr, IsErrOf, false};
ghost use Rattle.ztree.specs.Tree.{Tree};
ghost use Rattle.zjournal.specs.Device.{LeavesOnly};
ghost use Rattle.zjournal.specs.Journal.{IsAtRest, Keeps, device_of, size_of};
ghost use Rattle.zjournal.specs.Journal as file;
ghost use Rattle.zdurable.specs.DurableFront.{disk_of, front_in, made_in, IsOpen, IsServing, IsSound};
ghost use Rattle.zdurable.specs.DurableFront.{growth_of, is_long, measured_from};
ghost use Rattle.zdurable.specs.Compaction.{IsOldOrTree, IsTooLong, KeepsEither, RestsAfter};
ghost use Rattle.zdurable.specs.Compaction.{ServesAfter, growth_after};
ghost use Rattle.zfront.specs.Restoring.{all_taken};
ghost use Rattle.zsnapshots.specs.folder.States.{after};

use crate::DurableFront;
use crate::fault::DurableFault;
use std::alloc::Global;
use zalloc::Memory;
use zjournal::{Device, Journal, PutError};
use zsnapshots::folder::Compaction;
use ztree_service::{LocalTree, TreeService};

impl<D: Device> DurableFront<D> {
    /// Returns whether a new part is to be begun: the journal has grown by at least `least` bytes, by
    /// four times the data of the tree, and by 512 bytes for each node. Returns `Memory` if the tree
    /// ran out of memory before.
    pub fn is_long(&self, least: usize) -> Result<bool, Memory>
        ensures { IfOk result (λ long. long ≡ is_long least self.now) }
    {
        let growth = self.growth();
        let counts = self.front.service().counts()?;
        let is_long = growth >= least
            && (growth / 4) as u64 >= counts.bytes
            && growth / 512 >= counts.nodes;
        Ok(is_long)
    }

    // The bytes by which the journal has grown.
    fn growth(&self) -> usize
        ensures { result ≡ growth_of self.now }
    {
        self.journal.size().saturating_sub(self.measured)
    }

    /// The bytes of the journal.
    pub fn size(&self) -> usize
        ensures { result ≡ size_of self.now.journal }
    {
        self.journal.size()
    }

    /// Begins a new part of the file, so that another process can compact the parts before it. What
    /// the file holds is unchanged. Returns whether the part was begun. If the disk failed instead,
    /// the service continues with the part that it has. After any fault the service has ended.
    pub fn split(&mut self) -> Result<bool, DurableFault>
        requires { IsSound D.seen D.may_leave self.old }
        ensures kept { (servers : ℕ) (batches : List (List ℕ)) (t : Tree) → IsOpen self.old
            → IsServing D.seen D.may_leave servers batches t self.old
            → OnOk result (IsServing D.seen D.may_leave servers batches t self.new) }
        ensures front { front_in self.new ≡ front_in self.old }
        ensures measured { IfOk result (λ begun. growth_of self.new
            ≡ growth_after begun (growth_of self.old)) }
        ensures cause { IfOk result (λ begun. begun ≡ false
            → D.faults (disk_of self.old) < D.faults (disk_of self.new)) }
        ensures any_moment { (servers : ℕ) (batches : List (List ℕ)) (t : Tree)
            → IsServing D.seen D.may_leave servers batches t self.old
            → LeavesOnly D.moment D.left_since (disk_of self.old) (disk_of self.new)
            (Keeps servers batches) }
        ensures sound { IsSound D.seen D.may_leave self.new }
        ensures open { OnOk result (IsOpen self.old × IsOpen self.new) }
        ensures left { OnErr result (IsOpen self.new → ⊥) }
        ensures ended { (IsOpen self.old → ⊥)
            → IsErrOf result DurableFault.Ended × (self.new ≡ self.old) }
        ensures only { IsErrOf result DurableFault.Ended → IsOpen self.old → ⊥ }
        ensures full { IsErrOf result DurableFault.Full → ⊥ }
        ensures failed { IsErrOf result DurableFault.Failed → ⊥ }
    {
        if !self.is_open {
            return Err(DurableFault::Ended);
        }
        self.is_open = false;
        let begun = begin_part(&mut self.journal)?;
        self.measured = self.journal.size() - growth_after(begun, self.growth());
        self.is_open = true;
        Ok(begun)
    }

    /// Replaces the file, which may have many more changes, with one that holds the tree alone.
    /// Changes since the last commit become durable with it. No reply changes. At each moment a
    /// crash leaves a file with the old tree or with the current one. After any fault the service
    /// has ended.
    pub fn compact(&mut self) -> Result<(), DurableFault>
        requires { IsSound D.seen D.may_leave self.old }
        ensures kept { (servers : ℕ) (batches : List (List ℕ)) (t : Tree) → IsOpen self.old
            → IsServing D.seen D.may_leave servers batches t self.old
            → OnOk result (ServesAfter D.seen D.may_leave servers t self.old self.new) }
        ensures taken { OnOk result (front_in self.new ≡ all_taken (front_in self.old)) }
        ensures measured { OnOk result (measured_from self.new ≡ size_of self.new.journal) }
        ensures any_moment { (servers : ℕ) (batches : List (List ℕ)) (t : Tree)
            → IsServing D.seen D.may_leave servers batches t self.old
            → LeavesOnly D.moment D.left_since (disk_of self.old) (disk_of self.new)
            (KeepsEither servers t (after t (made_in self.old))) }
        ensures sound { IsSound D.seen D.may_leave self.new }
        ensures open { OnOk result (IsOpen self.old × IsOpen self.new) }
        ensures left { OnErr result (IsOpen self.new → ⊥) }
        ensures ended { (IsOpen self.old → ⊥)
            → IsErrOf result DurableFault.Ended × (self.new ≡ self.old) }
        ensures only { IsErrOf result DurableFault.Ended → IsOpen self.old → ⊥ }
        ensures full { (servers : ℕ) (batches : List (List ℕ)) (t : Tree)
            → IsServing D.seen D.may_leave servers batches t self.old
            → IsErrOf result DurableFault.Full → IsTooLong servers (after t (made_in self.old)) }
        ensures failed { IsErrOf result DurableFault.Failed
            → D.faults (disk_of self.old) < D.faults (disk_of self.new) }
    {
        if !self.is_open {
            return Err(DurableFault::Ended);
        }
        self.is_open = false;
        compact(self.alloc, &mut self.journal, self.front.service())?;
        drop(self.front.take_made());
        self.measured = self.journal.size();
        self.is_open = true;
        Ok(())
    }
}

// Returns the growth that is left, once a new part was to be begun.
fn growth_after(begun: bool, growth: usize) -> usize
    ensures left { result ≡ growth_after begun growth }
    ensures less { result ≤ growth }
{
    if begun { 0 } else { growth / 2 }
}

// Begins a new part of a journal's file. Returns false if the disk failed: then the journal is as it
// was.
fn begin_part<D: Device>(journal: &mut Journal<D>) -> Result<bool, PutError>
    requires { file.IsSound D.seen D.may_leave journal.old }
    ensures rest { (servers : ℕ) (batches : List (List ℕ))
        → IsAtRest D.seen D.may_leave servers batches journal.old
        → IsAtRest D.seen D.may_leave servers batches journal.new }
    ensures any_moment { (servers : ℕ) (batches : List (List ℕ))
        → IsAtRest D.seen D.may_leave servers batches journal.old
        → LeavesOnly D.moment D.left_since (device_of journal.old) (device_of journal.new)
        (Keeps servers batches) }
    ensures open { file.IsOpen journal.old → file.IsOpen journal.new }
    ensures size { size_of journal.new ≡ size_of journal.old }
    ensures cause { IfOk result (λ begun. begun ≡ false
        → D.faults (device_of journal.old) < D.faults (device_of journal.new)) }
    ensures only { IsErrOf result PutError.Closed → file.IsOpen journal.old → ⊥ }
    ensures failed { IsErrOf result PutError.Failed → ⊥ }
    ensures not_text { IsErrOf result PutError.NotText → ⊥ }
    ensures full { IsErrOf result PutError.Full → ⊥ }
{
    match journal.split() {
        Ok(()) => Ok(true),
        Err(PutError::Failed) => Ok(false),
        Err(fault) => Err(fault),
    }
}

/// Writes the text of the tree beside the journal's file, and replaces that file with it.
pub(crate) fn compact<D: Device>(
    alloc: Global,
    journal: &mut Journal<D>,
    tree: &LocalTree,
) -> Result<(), DurableFault>
    requires { file.IsSound D.seen D.may_leave journal.old }
    ensures kept { (servers : ℕ) (batches : List (List ℕ)) → file.IsOpen journal.old
        → IsAtRest D.seen D.may_leave servers batches journal.old
        → OnOk result (RestsAfter D.seen D.may_leave servers tree.now.tree journal.new) }
    ensures any_moment { (servers : ℕ) (batches : List (List ℕ))
        → IsAtRest D.seen D.may_leave servers batches journal.old
        → LeavesOnly D.moment D.left_since (device_of journal.old) (device_of journal.new)
        (IsOldOrTree servers batches tree.now.tree) }
    ensures open { OnOk result (file.IsOpen journal.old × file.IsOpen journal.new) }
    ensures only { IsErrOf result DurableFault.Ended → file.IsOpen journal.old → ⊥ }
    ensures full { (servers : ℕ) (batches : List (List ℕ))
        → IsAtRest D.seen D.may_leave servers batches journal.old
        → IsErrOf result DurableFault.Full → IsTooLong servers tree.now.tree }
    ensures failed { IsErrOf result DurableFault.Failed
        → D.faults (device_of journal.old) < D.faults (device_of journal.new) }
{
    let mut text = Compaction::new(alloc, tree)?;
    journal.begin_renewal(1)?;
    while let Some(chunk) = text.next_chunk()? {
        journal.put_renewed(&chunk)?;
    }
    journal.end_renewal()?;
    Ok(())
}
