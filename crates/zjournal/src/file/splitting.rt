//! How a file begins a new part. Each method makes its calls on the new part or the folder, and
//! then records them with their result.
//!
//! # Why
//! The part so far gets a second name, `journal.7`, and then loses the name `journal` to the new
//! one. That begins with the last byte of the part before it, so the folder has the same content by
//! either name. Until that name is durable, nothing is written to the new part. The part before it
//! is durable when a split begins, and is written no more. A split that fails before the rename
//! leaves a second name at most, which counts for nothing.

ghost use Rattle.std.specs.Prelude.{◌≡◌, ◌∷◌, true, false, IfErr, OnErr, OnOk};
ghost use Rattle.zjournal.specs.declared.device.DeviceError.TheVariants.{Failed};
ghost use Rattle.zjournal.specs.file.Events.{part_begun, part_kept, part_named, part_settled};
ghost use Rattle.zjournal.specs.file.Events.{replay};

use crate::DeviceError;
use crate::file::numbers::{PART_BEGUN, PART_KEPT, PART_NAMED, PART_SETTLED};
use crate::file::parts::HEADING;
use crate::file::{FileDevice, FileFault, SyncMode, calls, marks, parts};
use std::fs::{File, Files};
use std::mem;

impl<R: Files<File = File> + Copy> FileDevice<R> {
    ghost use Rattle.zjournal.specs.file.File.{events_of, mode_of};

    // Makes a new part in the place of a new file, which is ended, and writes all its bytes.
    pub(super) fn begin_part(&mut self) -> Result<(), DeviceError>
        ensures done { OnOk result (events_of self.new ≡ part_begun true ∷ events_of self.old) }
        ensures not_done { OnErr result (events_of self.new
            ≡ part_begun false ∷ events_of self.old) }
        ensures same { mode_of self.new ≡ mode_of self.old }
    {
        let begun = parts::new_part(&self.files, &self.place, &self.file);
        self.waits = None;
        self.beside = None;
        match begun {
            Ok(part) => {
                self.next = Some(part);
                self.log.note(&[PART_BEGUN, 0, 1], &[]);
                Ok(())
            }
            Err(fault) => {
                self.next = None;
                calls::remove(&self.files, &self.place.new_path);
                self.log.note(&[PART_BEGUN, 0, 0], &[]);
                Err(match fault {
                    FileFault::Memory => DeviceError::Memory,
                    _ => DeviceError::Failed,
                })
            }
        }
    }

    // Asks the disk to make the new part durable, and then the folder, unless syncs are skipped.
    fn is_new_part_synced(&self) -> bool {
        match &self.next {
            Some(part) if self.mode == SyncMode::Batch => {
                calls::sync_all(&part.file) && calls::sync_all(&self.place.folder)
            }
            Some(_) => true,
            None => false,
        }
    }

    // Makes the new part durable, and the second name of the part before it.
    pub(super) fn settle_part(&mut self) -> Result<(), DeviceError>
        ensures done { OnOk result (events_of self.new
            ≡ part_settled (mode_of self.old) true ∷ events_of self.old) }
        ensures not_done { OnErr result (events_of self.new
            ≡ part_settled (mode_of self.old) false ∷ events_of self.old) }
        ensures same { mode_of self.new ≡ mode_of self.old }
        ensures reported { IfErr result (λ e. e ≡ Failed) }
    {
        let done = self.is_new_part_synced();
        self.waits = None;
        if done {
            self.log.note(&[PART_SETTLED, self.mode.noted(), 1], &[]);
            Ok(())
        } else {
            self.next = None;
            calls::remove(&self.files, &self.place.new_path);
            self.log.note(&[PART_SETTLED, self.mode.noted(), 0], &[]);
            Err(DeviceError::Failed)
        }
    }

    // Gives the new part the name of the last one, which stays locked.
    pub(super) fn name_part(&mut self) -> Result<(), DeviceError>
        ensures done { OnOk result (events_of self.new ≡ part_named true ∷ events_of self.old) }
        ensures not_done { OnErr result (events_of self.new
            ≡ part_named false ∷ events_of self.old) }
        ensures same { mode_of self.new ≡ mode_of self.old }
        ensures reported { IfErr result (λ e. e ≡ Failed) }
    {
        self.waits = None;
        self.is_moved = true;
        match self.next.take() {
            Some(part) if calls::rename(&self.files, &self.place.new_path, &self.place.path) => {
                self.log.note(&[PART_NAMED, 0, 1], &[]);
                self.former = Some(mem::replace(&mut self.file, part.file));
                self.place.part = part.number;
                self.place.start = part.start;
                self.place.skip = HEADING;
                Ok(())
            }
            _ => {
                self.log.note(&[PART_NAMED, 0, 0], &[]);
                self.has_failed = true;
                Err(DeviceError::Failed)
            }
        }
    }

    // Makes the folder durable, with the new part's name.
    pub(super) fn keep_part(&mut self) -> Result<(), DeviceError>
        requires durable { (replay (events_of self.old)).part ≡ 2 }
        requires sound { (replay (events_of self.old)).has_failed ≡ false }
        ensures done { OnOk result (events_of self.new
            ≡ part_kept (mode_of self.old) true ∷ events_of self.old) }
        ensures not_done { OnErr result (events_of self.new
            ≡ part_kept (mode_of self.old) false ∷ events_of self.old) }
        ensures same { mode_of self.new ≡ mode_of self.old }
        ensures reported { IfErr result (λ e. e ≡ Failed) }
    {
        self.waits = None;
        if self.mode == SyncMode::Never || calls::sync_all(&self.place.folder) {
            self.log.note(&[PART_KEPT, self.mode.noted(), 1], &[]);
            self.is_moved = false;
            Ok(())
        } else {
            self.log.note(&[PART_KEPT, self.mode.noted(), 0], &[]);
            marks::mark_failed(&self.files, &self.place);
            self.has_failed = true;
            Err(DeviceError::Failed)
        }
    }
}
