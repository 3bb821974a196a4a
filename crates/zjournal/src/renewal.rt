//! Renewal of a journal's file: a new file with other batches replaces it.
//!
//! # Why
//! A new file replaces the old one by name, so each moment has one whole file. A renewal is three
//! calls and no value that holds the journal, so the caller can add one batch at a time. A new file
//! that can't be begun or written leaves the old one as it was. So only the last call ends a journal.
//!
//! The sum from which the new file's checksums continue is chosen. So a new file can end with the
//! same sum as the old one (`start_before`), and what followed the old one still continues.

ghost use Rattle.std.specs.Prelude.{◌≡◌, ◌<◌, ◌≤◌, ◌^◌, ◌++◌, [], ◌∷◌, List, ℕ};
ghost use Rattle.std.specs.Prelude.{OnOk, IfErr, IsErrOf};
ghost use Rattle.zjournal.specs.Blocks.{IsText};
ghost use Rattle.zjournal.specs.Device.{LeavesOnly};
ghost use Rattle.zjournal.specs.Checksum.{IsSum};
ghost use Rattle.zjournal.specs.Journal.{IsAtRest, IsOpen, IsSound, device_of, start_of};
ghost use Rattle.zjournal.specs.Puts.{IsLeftBy};
ghost use Rattle.zjournal.specs.Renewal.{IsInRenewal, IsRenewing, IsStoppedBy};
ghost use Rattle.zjournal.specs.Renewal.{renewed_size_of, renewed_start_of};
ghost use Rattle.zjournal.specs.Untouched.{IsTaking, IsUntouched};

use crate::beside::{add_open_block, begin_file, close_and_take};
use crate::checksum::{block_of, sum_after};
use crate::limits::MAX_BYTES;
use crate::place::Place;
use crate::{Device, Journal, PutError};

impl<D: Device> Journal<D> {
    /// Begins a new file beside this one, for the same number of servers and with no batch yet. Its
    /// first checksum continues from `start`. It replaces an unfinished one. No crash changes the
    /// journal's own file. If it isn't begun, the journal takes batches as before.
    pub fn begin_renewal(&mut self, start: u32) -> Result<(), PutError>
        requires sound { IsSound D.seen D.may_leave self.old }
        requires sum { IsSum start }
        ensures begun { (servers : ℕ) (batches : List (List ℕ))
            → IsOpen self.old → IsAtRest D.seen D.may_leave servers batches self.old
            → OnOk result (IsRenewing D.seen D.may_leave D.beside servers batches [] self.new) }
        ensures rest { (servers : ℕ) (batches : List (List ℕ))
            → IsAtRest D.seen D.may_leave servers batches self.old
            → IsAtRest D.seen D.may_leave servers batches self.new }
        ensures untouched { (servers : ℕ) (batches : List (List ℕ))
            → IsAtRest D.seen D.may_leave servers batches self.old
            → IsUntouched D.seen D.may_leave D.moment D.left_since
            (device_of self.old) (device_of self.new) }
        ensures renewing { OnOk result (IsInRenewal D.seen D.may_leave D.beside self.new) }
        ensures start { OnOk result (renewed_start_of self.new ≡ start) }
        ensures sound { IsSound D.seen D.may_leave self.new }
        ensures open { OnOk result (IsOpen self.old × IsOpen self.new) }
        ensures failed { IsErrOf result PutError.Failed
            → D.faults (device_of self.old) < D.faults (device_of self.new) }
        ensures faults { D.faults (device_of self.old) ≤ D.faults (device_of self.new) }
        ensures left { IfErr result (λ e. IsStoppedBy e self.old self.new) }
        ensures closed { (IsOpen self.old → ⊥) → IsErrOf result PutError.Closed }
        ensures not_text { IsErrOf result PutError.NotText → ⊥ }
        ensures full { IsErrOf result PutError.Full → ⊥ }
    {
        if !self.is_open {
            return Err(PutError::Closed);
        }
        begin_file(&mut self.device, start, self.servers)?;
        self.renewed = Place::first(start);
        Ok(())
    }

    /// Appends a batch to the new file. No crash changes the journal's own file. Batches come one
    /// at a time, so they are never all in memory. If one isn't written, the renewal is over, and
    /// the journal takes batches as before.
    pub fn put_renewed(&mut self, batch: &[u8]) -> Result<(), PutError>
        requires { IsInRenewal D.seen D.may_leave D.beside self.old }
        ensures added { (servers : ℕ) (batches next : List (List ℕ)) → IsOpen self.old
            → IsRenewing D.seen D.may_leave D.beside servers batches next self.old
            → OnOk result (IsRenewing D.seen D.may_leave D.beside servers batches
            (next ++ batch.now ∷ []) self.new) }
        ensures rest { (servers : ℕ) (batches : List (List ℕ))
            → IsAtRest D.seen D.may_leave servers batches self.old
            → IsAtRest D.seen D.may_leave servers batches self.new }
        ensures untouched { (servers : ℕ) (batches : List (List ℕ))
            → IsAtRest D.seen D.may_leave servers batches self.old
            → IsUntouched D.seen D.may_leave D.moment D.left_since
            (device_of self.old) (device_of self.new) }
        ensures renewing { OnOk result (IsInRenewal D.seen D.may_leave D.beside self.new) }
        ensures start { renewed_start_of self.new ≡ renewed_start_of self.old }
        ensures sound { IsSound D.seen D.may_leave self.new }
        ensures open { OnOk result (IsOpen self.old × IsOpen self.new) }
        ensures failed { IsErrOf result PutError.Failed
            → D.faults (device_of self.old) < D.faults (device_of self.new) }
        ensures faults { D.faults (device_of self.old) ≤ D.faults (device_of self.new) }
        ensures left { IfErr result (λ e. IsStoppedBy e self.old self.new) }
        ensures closed { (IsOpen self.old → ⊥) → IsErrOf result PutError.Closed }
        ensures not_text { IsErrOf result PutError.NotText → IsText batch.now → ⊥ }
        ensures full { IsErrOf result PutError.Full → 2 ^ 60 ≤ renewed_size_of self.old }
    {
        if !self.is_open {
            return Err(PutError::Closed);
        }
        if batch.contains(&0) {
            return Err(PutError::NotText);
        }
        if self.renewed.end >= MAX_BYTES {
            return Err(PutError::Full);
        }
        let sum = sum_after(self.renewed.sum, batch);
        let block = block_of(self.alloc, sum, batch)?;
        let block = block.as_slice();
        add_open_block(&mut self.device, block)?;
        self.renewed = self.renewed.after(block.len(), sum);
        Ok(())
    }

    /// Ends the new file, and replaces the old one with it. At `Ok` it is durable with its name:
    /// from then on every crash leaves its batches, and no others. A crash meanwhile leaves the old
    /// file or the new one, whole. After a fault the journal takes nothing more, and the file is one
    /// of the two.
    pub fn end_renewal(&mut self) -> Result<(), PutError>
        requires { IsInRenewal D.seen D.may_leave D.beside self.old }
        ensures renewed { (servers : ℕ) (batches next : List (List ℕ)) → IsOpen self.old
            → IsRenewing D.seen D.may_leave D.beside servers batches next self.old
            → OnOk result (IsAtRest D.seen D.may_leave servers next self.new) }
        ensures start { OnOk result (start_of self.new ≡ renewed_start_of self.old) }
        ensures any_moment { (servers : ℕ) (batches next : List (List ℕ))
            → IsRenewing D.seen D.may_leave D.beside servers batches next self.old
            → LeavesOnly D.moment D.left_since (device_of self.old) (device_of self.new)
            (IsTaking (D.seen (device_of self.old)) (D.beside (device_of self.old))) }
        ensures sound { IsSound D.seen D.may_leave self.new }
        ensures open { OnOk result (IsOpen self.old × IsOpen self.new) }
        ensures failed { IsErrOf result PutError.Failed
            → D.faults (device_of self.old) < D.faults (device_of self.new) }
        ensures faults { D.faults (device_of self.old) ≤ D.faults (device_of self.new) }
        ensures left { IfErr result (λ e. IsLeftBy e self.old self.new) }
        ensures closed { (IsOpen self.old → ⊥) → IsErrOf result PutError.Closed }
        ensures not_text { IsErrOf result PutError.NotText → ⊥ }
        ensures full { IsErrOf result PutError.Full → ⊥ }
    {
        if !self.is_open {
            return Err(PutError::Closed);
        }
        self.is_open = false; // until the file is replaced
        close_and_take(&mut self.device)?;
        self.place = self.renewed;
        self.is_open = true;
        Ok(())
    }
}
