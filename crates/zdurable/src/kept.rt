//! A front end over a journal: it is opened, and commits its changes.
//!
//! # Why
//! A block is everything changed since the last commit, so a host can commit many inputs at once.
//! Chunks wait meanwhile, also those of queries: a query's reply may show a change that isn't
//! durable yet.

ghost use Rattle.std.specs.Prelude.{◌≡◌, ◌<◌, ◌≤◌, ◌^◌, ◌++◌, [], ◌∷◌, List, ℕ};
ghost use Rattle.std.specs.Prelude.{IfErr, IfOk, IsErrOf, IsOk, OnOk};
ghost use Rattle.ztree.specs.Tree.{Tree};
ghost use Rattle.zjournal.specs.Blocks.{IsText};
ghost use Rattle.zjournal.specs.Device.{LeavesOnly, Only};
ghost use Rattle.zjournal.specs.Journal.{IsAtRest, IsWithOrWithout, Represents, device_of, size_of};
ghost use Rattle.zjournal.specs.Journal as state;
ghost use Rattle.zjournal.specs.Puts as puts;
ghost use Rattle.zfront.specs.Restoring.{all_taken};
ghost use Rattle.zjournal.specs.Scan.{joined};
ghost use Rattle.zstore.specs.Restored.{with_limits};
ghost use Rattle.zdurable.specs.Faults.{disk_failed, IsFull, IsLeftBy, IsOfReading};
ghost use Rattle.zdurable.specs.Faults.{IsSuchFileWithin};
ghost use Rattle.zdurable.specs.Opening.{IsFoundOrWithin, IsOpenedWithin};
ghost use Rattle.zdurable.specs.DurableFront.{disk_of, front_in, made_in, more_if, measured_from};
ghost use Rattle.zdurable.specs.DurableFront.{IsOpen, IsServing, IsSound};
ghost use Rattle.zdurable.specs.Looking.{ReportsOfPasswords};
ghost use Rattle.zdurable.specs.Restored.{restored};
ghost use Rattle.zsnapshots.specs.folder.Entries.{entries_text};
ghost use Rattle.zsnapshots.specs.folder.States.{after};
ghost use Rattle.zsnapshots.specs.folder.Texts.{IsTextOf};

use crate::fault::{DurableFault, OpenFault};
use crate::looking::look;
use crate::opened::Opened;
use crate::restored::restored;
use crate::within::{limited, measure_if, open_within};
use crate::writing::written;
use std::alloc::Global;
use zfront::{Front, Secret, Terms, WatchLimits};
use zjournal::{Device, Journal, PutError};
use zprotocol::ServerId;
use zsnapshots::folder::Found;
use ztree_service::{LocalTree, TreeLimits};

/// A server for ZooKeeper's clients whose changes are made durable.
///
/// It returns chunks only while all its changes are durable. After any fault it has ended, and its
/// file is to be opened again.
#[derive(Drop)]
pub struct DurableFront<D: Device> {
    pub(crate) alloc: Global,
    pub(crate) front: Front<LocalTree>,
    pub(crate) journal: Journal<D>,
    // From where the growth of the journal is measured.
    pub(crate) measured: usize,
    pub(crate) is_open: bool,
}

impl<D: Device> DurableFront<D> {
    /// Opens the service of a file that a crash may have left, or of a new one. Its front end
    /// begins with the tree that the file holds, with these terms and limits of watches. If the
    /// tree has other limits than these, a file with the tree within these replaces the old one
    /// first. If reading fails, or the tree doesn't fit within these, the file is unchanged. A crash
    /// while opening leaves a file with the same tree, within its limits or these. The tree's time
    /// is `now_ms` now, in milliseconds since 1970. An `Err` returns the device.
    pub fn open(
        alloc: Global,
        device: D,
        servers: ServerId,
        secret: Secret,
        terms: Terms,
        now_ms: u64,
        watches: WatchLimits,
        limits: TreeLimits,
    ) -> Result<Opened<D>, (OpenFault, D)>
        // After a restart, a read returns what is durable.
        requires durable { Only (D.seen device) (D.may_leave device) }
        ensures serving { IfOk result (λ opened.
            (is : IsOpenedWithin D.seen D.may_leave servers (D.seen device) limits opened.kept)
            × (opened.kept.front
            ≡ restored watches secret terms now_ms (with_limits is.found limits))) }
        ensures open { IfOk result (λ opened. IsOpen opened.kept) }
        ensures sound { IfOk result (λ opened. IsSound D.seen D.may_leave opened.kept) }
        ensures passwords { IfOk result (λ opened.
            ReportsOfPasswords servers (D.seen device) opened.had_passwords) }
        ensures any_moment { (batches : List (List ℕ)) (found : Tree)
            → Represents servers batches (D.seen device) → IsTextOf found (joined batches)
            → IfOk result (λ opened. LeavesOnly D.moment D.left_since device (disk_of opened.kept)
            (IsFoundOrWithin servers batches found limits)) }
        ensures any_moment_err { (batches : List (List ℕ)) (found : Tree)
            → Represents servers batches (D.seen device) → IsTextOf found (joined batches)
            → IfErr result (λ e. LeavesOnly D.moment D.left_since device e.1
            (IsFoundOrWithin servers batches found limits)) }
        ensures untouched { IfErr result (λ e. IsOfReading e.0
            → (D.seen e.1 ≡ D.seen device)
            × LeavesOnly D.moment D.left_since device e.1 (λ c. c ≡ D.seen device)) }
        ensures fault { IfErr result (λ e. IsSuchFileWithin limits servers (D.seen device) e.0) }
        ensures failed { IfErr result (λ e. e.0 ≡ disk_failed → D.faults device < D.faults e.1) }
    {
        let mut device = device;
        let found = match look(alloc, &mut device, servers) {
            Ok(it) => it.found,
            Err(fault) => return Err((fault, device)),
        };
        let Found {
            tree,
            had_passwords,
            ..
        } = found;
        let (tree, is_other) = match limited(tree, limits) {
            Ok(it) => it,
            Err(fault) => return Err((fault, device)),
        };
        let front = match restored(alloc, tree, secret, terms, now_ms, watches) {
            Ok(front) => front,
            Err(_) => return Err((OpenFault::Memory, device)),
        };
        match open_within(alloc, device, servers, front.service(), is_other) {
            Ok(journal) => {
                let measured = measure_if(is_other, &journal);
                Ok(Opened {
                    kept: DurableFront {
                        alloc,
                        front,
                        journal,
                        measured,
                        is_open: true,
                    },
                    had_passwords,
                })
            }
            Err((fault, device)) => {
                drop(front);
                Err((fault, device))
            }
        }
    }

    /// The device that holds the file.
    pub fn device(&self) -> &D
        ensures { result.now ≡ disk_of self.now }
    {
        self.journal.device()
    }

    /// Commits the changes since the last commit, as one block. At `Ok` the block is durable, and
    /// its chunks can be taken. Without changes nothing is written. After any fault the service has
    /// ended; a file that is opened again then has all these changes, or none.
    pub fn commit(&mut self) -> Result<(), DurableFault>
        requires { IsSound D.seen D.may_leave self.old }
        ensures kept { (servers : ℕ) (batches : List (List ℕ)) (t : Tree) → IsOpen self.old
            → IsServing D.seen D.may_leave servers batches t self.old
            → OnOk result (IsServing D.seen D.may_leave servers
            (more_if (made_in self.old) batches) (after t (made_in self.old)) self.new) }
        ensures taken { OnOk result (front_in self.new ≡ all_taken (front_in self.old)) }
        ensures measured { measured_from self.new ≡ measured_from self.old }
        ensures nothing { made_in self.old ≡ [] → IsOpen self.old
            → IsOk result × (self.new ≡ self.old) }
        ensures any_moment { (servers : ℕ) (batches : List (List ℕ)) (t : Tree)
            → IsServing D.seen D.may_leave servers batches t self.old
            → LeavesOnly D.moment D.left_since (disk_of self.old) (disk_of self.new)
            (IsWithOrWithout servers batches (entries_text (made_in self.old))) }
        ensures sound { IsSound D.seen D.may_leave self.new }
        ensures open { OnOk result (IsOpen self.old × IsOpen self.new) }
        ensures left { IfErr result (λ e. IsLeftBy e self.old self.new) }
        ensures ended { (IsOpen self.old → ⊥)
            → IsErrOf result DurableFault.Ended × (self.new ≡ self.old) }
        ensures full { IsErrOf result DurableFault.Full → IsFull self.old }
        ensures failed { IsErrOf result DurableFault.Failed
            → D.faults (disk_of self.old) < D.faults (disk_of self.new) }
    {
        if !self.is_open {
            return Err(DurableFault::Ended);
        }
        if self.front.made().is_empty() {
            return Ok(());
        }
        self.is_open = false;
        let text = written(self.alloc, self.front.take_made())?;
        put(&mut self.journal, &text)?; // now they are on the disk
        self.is_open = true;
        Ok(())
    }
}

// Appends a block to the journal, once.
fn put<D: Device>(journal: &mut Journal<D>, text: &[u8]) -> Result<(), PutError>
    requires { state.IsSound D.seen D.may_leave journal.old }
    ensures kept { (servers : ℕ) (batches : List (List ℕ)) → state.IsOpen journal.old
        → IsAtRest D.seen D.may_leave servers batches journal.old
        → OnOk result (IsAtRest D.seen D.may_leave servers
        (batches ++ text.now ∷ []) journal.new) }
    ensures any_moment { (servers : ℕ) (batches : List (List ℕ))
        → IsAtRest D.seen D.may_leave servers batches journal.old
        → LeavesOnly D.moment D.left_since (device_of journal.old) (device_of journal.new)
        (IsWithOrWithout servers batches text.now) }
    ensures open { OnOk result (state.IsOpen journal.old × state.IsOpen journal.new) }
    ensures failed { IsErrOf result PutError.Failed
        → D.faults (device_of journal.old) < D.faults (device_of journal.new) }
    ensures left { IfErr result (λ e. puts.IsLeftBy e journal.old journal.new) }
    ensures not_text { IsErrOf result PutError.NotText → IsText text.now → ⊥ }
    ensures full { IsErrOf result PutError.Full → 2 ^ 60 ≤ size_of journal.old }
{
    journal.put(text)
}
