//! A journal over a device: batches are appended to its file.
//!
//! # Why
//! After a fault of its file the journal refuses everything: opening the file again shows what is
//! durable. `put` looks for a byte 0 itself, so it has no precondition on the text.

ghost use Rattle.std.specs.Prelude.{◌≡◌, ◌<◌, ◌≤◌, ◌^◌, ◌++◌, [], ◌∷◌, List, ℕ};
ghost use Rattle.std.specs.Prelude.{OnOk, IfErr, IsErrOf};
ghost use Rattle.zjournal.specs.Device.{LeavesOnly};
ghost use Rattle.zjournal.specs.Blocks.{IsText};
ghost use Rattle.zjournal.specs.Checksum.{IsSum};
ghost use Rattle.zjournal.specs.Journal.{IsAtRest, IsOpen, IsSound, IsWithOrWithout};
ghost use Rattle.zjournal.specs.Journal.{Keeps, device_of, size_of, start_of, sum_of};
ghost use Rattle.zjournal.specs.Puts.{IsLeftBy};
ghost use Rattle.zjournal.specs.Renewal.{IsOnlyCalled};

use crate::checksum::{block_of, sum_after};
use crate::commit_bytes::add_block;
use crate::limits::MAX_BYTES;
use crate::place::Place;
use crate::{Device, PutError};
use std::alloc::Global;

/// An open journal.
#[derive(Drop)]
pub struct Journal<D: Device> {
    pub(crate) alloc: Global,
    pub(crate) device: D,
    pub(crate) servers: u8,
    // Where the next block goes.
    pub(crate) place: Place,
    // In a renewal, where the next block of the new file goes.
    pub(crate) renewed: Place,
    pub(crate) is_open: bool,
}

impl<D: Device> Journal<D> {
    /// Returns the device that holds the file.
    pub fn device(&self) -> &D
        ensures { result.now ≡ device_of self.now }
    {
        &self.device
    }

    /// Ends the journal, and returns the device that holds the file.
    pub fn into_device(self) -> D
        ensures { result ≡ device_of self }
    {
        let Journal { device, .. } = self;
        device
    }

    /// Returns the length of the file's blocks in bytes, without the commit byte after them.
    pub fn size(&self) -> usize
        ensures { result ≡ size_of self.now }
    {
        self.place.end // of the blocks
    }

    /// Returns the sum from which the checksum of the next batch continues.
    pub fn sum(&self) -> u32
        ensures sum { result ≡ sum_of self.now }
        ensures is_sum { (servers : ℕ) (batches : List (List ℕ))
            → IsAtRest D.seen D.may_leave servers batches self.now → IsSum result }
    {
        self.place.sum
    }

    /// Appends a batch. At `Ok` it is durable: from then on every crash leaves a file that holds
    /// it. After `Failed`, and sometimes after `Memory`, the journal takes nothing more. The file
    /// then has the batch or hasn't; opening it again shows which.
    pub fn put(&mut self, batch: &[u8]) -> Result<(), PutError>
        requires { IsSound D.seen D.may_leave self.old }
        ensures kept { (servers : ℕ) (batches : List (List ℕ))
            → IsOpen self.old → IsAtRest D.seen D.may_leave servers batches self.old
            → OnOk result (IsAtRest D.seen D.may_leave servers
            (batches ++ batch.now ∷ []) self.new) }
        ensures any_moment { (servers : ℕ) (batches : List (List ℕ))
            → IsAtRest D.seen D.may_leave servers batches self.old
            → LeavesOnly D.moment D.left_since (device_of self.old) (device_of self.new)
            (IsWithOrWithout servers batches batch.now) }
        ensures start { start_of self.new ≡ start_of self.old }
        ensures sound { IsSound D.seen D.may_leave self.new }
        ensures open { OnOk result (IsOpen self.old × IsOpen self.new) }
        ensures failed { IsErrOf result PutError.Failed
            → D.faults (device_of self.old) < D.faults (device_of self.new) }
        ensures left { IfErr result (λ e. IsLeftBy e self.old self.new) }
        ensures closed { (IsOpen self.old → ⊥) → IsErrOf result PutError.Closed }
        ensures not_text { IsErrOf result PutError.NotText → IsText batch.now → ⊥ }
        ensures full { IsErrOf result PutError.Full → 2 ^ 60 ≤ size_of self.old }
    {
        if !self.is_open {
            return Err(PutError::Closed);
        }
        if batch.contains(&0) {
            return Err(PutError::NotText);
        }
        if self.place.end >= MAX_BYTES {
            return Err(PutError::Full);
        }
        let sum = sum_after(self.place.sum, batch);
        let block = block_of(self.alloc, sum, batch)?;
        let block = block.as_slice();
        self.is_open = false;
        add_block(&mut self.device, self.place.end, block)?;
        self.place = self.place.after(block.len(), sum);
        self.is_open = true;
        Ok(())
    }

    /// Begins a new part of the file. What the file holds is unchanged, and from now on it grows
    /// there. If the part isn't begun, the journal takes batches as before.
    pub fn split(&mut self) -> Result<(), PutError>
        requires { IsSound D.seen D.may_leave self.old }
        ensures rest { (servers : ℕ) (batches : List (List ℕ))
            → IsAtRest D.seen D.may_leave servers batches self.old
            → IsAtRest D.seen D.may_leave servers batches self.new }
        ensures any_moment { (servers : ℕ) (batches : List (List ℕ))
            → IsAtRest D.seen D.may_leave servers batches self.old
            → LeavesOnly D.moment D.left_since (device_of self.old) (device_of self.new)
            (Keeps servers batches) }
        ensures only { IsOnlyCalled self.old self.new }
        ensures sound { IsSound D.seen D.may_leave self.new }
        ensures failed { IsErrOf result PutError.Failed
            → D.faults (device_of self.old) < D.faults (device_of self.new) }
        ensures closed { (IsOpen self.old → ⊥) → IsErrOf result PutError.Closed }
        ensures open { IsErrOf result PutError.Closed → IsOpen self.old → ⊥ }
        ensures not_text { IsErrOf result PutError.NotText → ⊥ }
        ensures full { IsErrOf result PutError.Full → ⊥ }
    {
        if !self.is_open {
            return Err(PutError::Closed);
        }
        self.device.split()?;
        Ok(())
    }
}
