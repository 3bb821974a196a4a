//! How a new file replaces the old one. Each method makes one call on a file or the folder, and
//! then records it with its result.

ghost use Rattle.std.specs.Prelude.{◌≡◌, ◌∷◌, true, false, IfErr, OnErr, OnOk};
ghost use Rattle.zjournal.specs.declared.device.DeviceError.TheVariants.{Failed};
ghost use Rattle.zjournal.specs.file.Events.{ends_with_name, folder_synced, named, replay, settled};

use crate::DeviceError;
use crate::file::numbers::{FOLDER_SYNCED, NAMED, SETTLED};
use crate::file::{FileDevice, SyncMode, calls, marks, parts};
use std::fs::{File, Files};
use std::mem;

// After so many bytes a new file beside a server is synced.
const SPREAD: usize = 1 << 17;

impl<R: Files<File = File> + Copy> FileDevice<R> {
    ghost use Rattle.zjournal.specs.file.File.{events_of, mode_of};

    // Appends bytes to the new file. One that is to replace the parts before the last is synced after
    // each 128 KiB: long syncs would hold up those of the server. Returns whether all was done, and
    // `None` if there is no new file to which calls are made.
    pub(super) fn append(&mut self, bytes: &[u8]) -> Option<bool>
        ensures same { self.new ≡ record self.old { unsynced = self.new.unsynced } }
    {
        match &self.beside {
            Some(next) if !self.has_failed => {
                let is_added = calls::append(next, bytes);
                self.unsynced = self.unsynced.saturating_add(bytes.len());
                if !self.place.is_beginning || self.unsynced < SPREAD {
                    return Some(is_added);
                }
                self.unsynced = 0;
                Some(is_added && calls::sync(next))
            }
            _ => None,
        }
    }

    // Asks the disk to make the new file durable, unless syncs are skipped.
    fn is_new_file_synced(&self) -> bool {
        match &self.beside {
            Some(next) => self.mode == SyncMode::Never || calls::sync_all(next),
            None => false,
        }
    }

    // Makes the new file durable.
    pub(super) fn settle(&mut self) -> Result<(), DeviceError>
        ensures done { OnOk result (events_of self.new
            ≡ settled (mode_of self.old) true ∷ events_of self.old) }
        ensures not_done { OnErr result (events_of self.new
            ≡ settled (mode_of self.old) false ∷ events_of self.old) }
        ensures same { mode_of self.new ≡ mode_of self.old }
        ensures reported { IfErr result (λ e. e ≡ Failed) }
    {
        let done = self.is_new_file_synced();
        self.waits = None;
        if done {
            self.log.note(&[SETTLED, self.mode.noted(), 1], &[]);
            Ok(())
        } else {
            self.log.note(&[SETTLED, self.mode.noted(), 0], &[]);
            marks::mark_failed(&self.files, &self.place);
            self.has_failed = true;
            Err(DeviceError::Failed)
        }
    }

    // Gives the new file the name of the old one, which stays locked.
    pub(super) fn take_name(&mut self) -> Result<(), DeviceError>
        ensures done { OnOk result (events_of self.new ≡ named true ∷ events_of self.old) }
        ensures not_done { OnErr result (events_of self.new ≡ named false ∷ events_of self.old) }
        ensures same { mode_of self.new ≡ mode_of self.old }
        ensures reported { IfErr result (λ e. e ≡ Failed) }
    {
        self.waits = None;
        self.is_moved = true;
        if calls::rename(&self.files, &self.place.new_path, &self.place.path) {
            self.log.note(&[NAMED, 0, 1], &[]);
            if let Some(next) = self.beside.take() {
                self.former = Some(mem::replace(&mut self.file, next));
                self.place.start = 0;
                self.place.skip = 0;
            }
            Ok(())
        } else {
            self.log.note(&[NAMED, 0, 0], &[]);
            self.has_failed = true;
            Err(DeviceError::Failed)
        }
    }

    // Makes the folder durable, with the name. Then the bytes of the old file are freed, and the
    // parts before it are removed.
    pub(super) fn sync_folder(&mut self) -> Result<(), DeviceError>
        requires whole { ends_with_name (replay (events_of self.old)).changes ≡ true }
        requires sound { (replay (events_of self.old)).has_failed ≡ false }
        ensures done { OnOk result (events_of self.new
            ≡ folder_synced (mode_of self.old) true ∷ events_of self.old) }
        ensures not_done { OnErr result (events_of self.new
            ≡ folder_synced (mode_of self.old) false ∷ events_of self.old) }
        ensures same { mode_of self.new ≡ mode_of self.old }
        ensures reported { IfErr result (λ e. e ≡ Failed) }
    {
        self.waits = None;
        if self.mode == SyncMode::Never || calls::sync_all(&self.place.folder) {
            self.log.note(&[FOLDER_SYNCED, self.mode.noted(), 1], &[]);
            self.is_moved = false;
            if let Some(former) = &self.former {
                calls::free(former);
            }
            parts::remove_before(&self.files, &self.place);
            self.place.part = 0;
            Ok(())
        } else {
            self.log.note(&[FOLDER_SYNCED, self.mode.noted(), 0], &[]);
            marks::mark_failed(&self.files, &self.place);
            self.has_failed = true;
            Err(DeviceError::Failed)
        }
    }
}
