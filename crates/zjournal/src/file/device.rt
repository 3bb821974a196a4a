//! A device over one file of the system. Each method makes one call, and then records it with its
//! result. The new file replaces the old one in three such steps (`replacing.rt`), and a new part
//! begins in four (`splitting.rt`).
//!
//! # Why
//! After a failed call on the file the device makes no more. A failed write may have put some of its
//! bytes where a sync would make them durable. A new file that fails is removed, and the file takes
//! calls as before. The device holds the runtime by which it was opened: `std::fs` needs it to make,
//! rename and remove files.

ghost use Rattle.std.specs.Prelude.{◌≡◌, ◌&&◌, ◌∷◌, [], false, IfOk, IfSome, length};
ghost use Rattle.std.specs.Option.{is_some};
ghost use Rattle.zjournal.specs.Device.{Only};
ghost use Rattle.zjournal.specs.declared.device.DeviceError.TheVariants.{Failed};
ghost use Rattle.zjournal.specs.file.Events.{held, refused, replay, MayLeave};
ghost use Rattle.zjournal.specs.file.Events.{asks, skips};
ghost use Rattle.zjournal.specs.file.Moments.{LeftSince, left_now, left_last};
ghost use Rattle.zjournal.specs.file.Waiting.{calls_before};

use crate::file::numbers::{ADDED, BEGUN, HELD, REFUSED, SHORTENED, SYNCED, WRITTEN};
use crate::file::opening::Opened;
use crate::file::parts::NewPart;
use crate::file::place::Place;
use crate::file::record::Record;
use crate::file::{FileFault, SyncMode, Tail, calls, marks, opening};
use crate::{Device, DeviceError};
use std::alloc::Global;
use std::fs::{File, Files};

/// The file `journal` of a folder, the last of its parts. It is locked until this is dropped, also
/// when a new one, `journal.new`, replaces or continues it. Or the parts before the last one, with
/// their folder locked.
#[derive(Drop)]
pub struct FileDevice<R> {
    pub(super) files: R,
    pub(super) place: Place,
    pub(super) file: File,
    // The new file, if one is begun and whole so far, and the one that lost its name last. That one
    // stays locked: it keeps out a program that opened it earlier and doesn't check the name again.
    pub(super) beside: Option<File>,
    // How many of its bytes were added since it was synced.
    pub(super) unsynced: usize,
    pub(super) former: Option<File>,
    // A new part that is whole so far, until it has the name.
    pub(super) next: Option<NewPart>,
    pub(super) mode: SyncMode,
    // What was read at opening, until the file is changed or synced.
    pub(super) waits: Option<Vec<u8>>,
    // What was cut off at opening, and whether a sync failed before.
    pub(super) tail: Option<Tail>,
    pub(super) had_failed: bool,
    pub(super) has_failed: bool,
    // A new file or part has the name, which may not be durable.
    pub(super) is_moved: bool,
    pub(super) log: Record,
    ghost waiting: { log.events ≡ calls_before waits log.events },
    ghost failed: { has_failed ≡ (replay log.events).has_failed },
    ghost begun: { is_some beside ≡ (replay log.events).is_begun },
    ghost moved: { is_moved ≡ (replay log.events).is_moved },
    // With `Batch` no sync was skipped.
    ghost asked: { (asks mode && skips log.events) ≡ false },
}

impl<R: Files<File = File> + Copy> FileDevice<R> {
    ghost use Rattle.zjournal.specs.file.File.{events_of, mode_of, seen_of, MayLeaveOf};

    /// Opens the file of the folder, locks it and reads it whole. Missing folder and file are made,
    /// for their owner alone. File, folder and the folder above are synced.
    pub fn open(
        alloc: Global,
        files: &R,
        folder: &str,
        mode: SyncMode,
    ) -> Result<FileDevice<R>, FileFault>
        ensures fresh { IfOk result (λ file. events_of file ≡ held (seen_of file) ∷ []) }
        ensures durable { IfOk result (λ file. Only (seen_of file) (MayLeaveOf file)) }
        ensures mode { IfOk result (λ file. mode_of file ≡ mode) }
    {
        let found = opening::open_locked(alloc, files, folder)?;
        Ok(FileDevice::begin(*files, found, mode))
    }

    /// Opens the parts before the last one, if there are several, so that one file may replace them
    /// while a server has the last. Locks the folder. Where a sync has failed there is `None`.
    pub fn open_beginning(
        alloc: Global,
        files: &R,
        folder: &str,
        mode: SyncMode,
    ) -> Result<Option<FileDevice<R>>, FileFault>
        ensures fresh { IfOk result (λ found. IfSome found (λ file.
            events_of file ≡ held (seen_of file) ∷ [])) }
        ensures durable { IfOk result (λ found. IfSome found (λ file.
            Only (seen_of file) (MayLeaveOf file))) }
        ensures mode { IfOk result (λ found. IfSome found (λ file. mode_of file ≡ mode)) }
    {
        match opening::open_beginning(alloc, files, folder)? {
            Some(found) => Ok(Some(FileDevice::begin(*files, found, mode))),
            None => Ok(None),
        }
    }

    /// Whether its syncs ask the disk. With `Batch` no sync so far was skipped.
    pub fn mode(&self) -> SyncMode
        ensures mode { result ≡ mode_of self.now }
        ensures asked { (asks (mode_of self.now) && skips (events_of self.now)) ≡ false }
    {
        self.mode
    }

    // The device over a file that holds these bytes, all of them durable.
    fn begin(files: R, found: Opened, mode: SyncMode) -> FileDevice<R>
        ensures fresh { events_of result ≡ held found.bytes.items ∷ [] }
        ensures mode { mode_of result ≡ mode }
    {
        let mut log = Record::new();
        log.note(&[HELD, 0, 1], &found.bytes);
        FileDevice {
            files,
            place: found.place,
            file: found.file,
            beside: None,
            unsynced: 0,
            former: None,
            next: None,
            mode,
            waits: Some(found.bytes),
            tail: None,
            had_failed: found.had_failed,
            has_failed: false,
            is_moved: false,
            log,
        }
    }

    // Makes no call on the file.
    pub(super) fn refuse(&mut self) -> DeviceError
        ensures reported { result ≡ Failed }
        ensures noted { events_of self.new ≡ refused ∷ events_of self.old }
        ensures same { mode_of self.new ≡ mode_of self.old }
    {
        self.waits = None;
        self.log.note(&[REFUSED, 0, 0], &[]);
        DeviceError::Failed
    }
}

impl<R: Files<File = File> + Copy> Device for FileDevice<R> {
    ghost seen = { λ f. (replay f.log.events).seen };

    ghost may_leave = { λ f. MayLeave f.log.events };

    ghost moment = { λ f. length f.log.events };

    ghost left_since = { λ f. LeftSince f.log.events };

    ghost faults = { λ f. (replay f.log.events).faults };

    ghost beside = { λ f. (replay f.log.events).beside };

    ghost asks_disk = { λ f. asks f.mode };

    ghost counts_now = { λ f t c le may. left_now f.log.events t c may };

    ghost only_now = { λ f c left. left_last f.log.events c left };

    /// Returns what was read at opening, until the file is changed or synced. Later there is
    /// nothing to compare the file with, so it fails then, without a call on the file.
    fn read(&mut self, alloc: Global) -> Result<Vec<u8>, DeviceError> {
        match &self.waits {
            Some(bytes) => Ok(bytes.to_vec(alloc)?),
            None => Err(self.refuse()),
        }
    }

    // Only the last part takes bytes.
    fn write_at(&mut self, at: usize, bytes: &[u8]) -> Result<(), DeviceError> {
        let offset = match self.place.offset(at) {
            Some(offset) if !self.has_failed => offset,
            _ => return Err(self.refuse()),
        };
        self.waits = None;
        if calls::write_all(&self.file, offset, bytes) {
            self.log.note(&[WRITTEN, at as u64, 1], bytes);
            Ok(())
        } else {
            self.log.note(&[WRITTEN, at as u64, 0], bytes);
            self.has_failed = true;
            Err(DeviceError::Failed)
        }
    }

    fn cut(&mut self, len: usize) -> Result<(), DeviceError> {
        let offset = match self.place.offset(len) {
            Some(offset) if !self.has_failed => offset,
            _ => return Err(self.refuse()),
        };
        let saved = self.save_tail(len);
        self.waits = None;
        if let Ok(Some(tail)) = saved {
            self.tail = Some(tail);
        }
        if saved.is_ok() && calls::cut(&self.file, offset) {
            self.log.note(&[SHORTENED, len as u64, 1], &[]);
            Ok(())
        } else {
            self.log.note(&[SHORTENED, len as u64, 0], &[]);
            self.has_failed = true;
            Err(DeviceError::Failed)
        }
    }

    // No sync of the file makes its name durable.
    fn sync(&mut self) -> Result<(), DeviceError> {
        if self.has_failed || self.is_moved {
            return Err(self.refuse());
        }
        self.waits = None;
        if self.mode == SyncMode::Never || calls::sync(&self.file) {
            self.log.note(&[SYNCED, self.mode.noted(), 1], &[]);
            Ok(())
        } else {
            self.log.note(&[SYNCED, self.mode.noted(), 0], &[]);
            marks::mark_failed(&self.files, &self.place);
            self.has_failed = true;
            Err(DeviceError::Failed)
        }
    }

    fn begin_beside(&mut self) -> Result<(), DeviceError> {
        if self.has_failed {
            return Err(self.refuse());
        }
        self.waits = None;
        match opening::new_file(&self.files, &self.place.new_path) {
            Ok(next) => {
                self.beside = Some(next);
                self.log.note(&[BEGUN, 0, 1], &[]);
                Ok(())
            }
            Err(_) => {
                self.beside = None; // so it can't take the name
                calls::remove(&self.files, &self.place.new_path);
                self.log.note(&[BEGUN, 0, 0], &[]);
                Err(DeviceError::Failed)
            }
        }
    }

    fn add_beside(&mut self, bytes: &[u8]) -> Result<(), DeviceError> {
        let Some(done) = self.append(bytes) else {
            return Err(self.refuse());
        };
        self.waits = None;
        if done {
            self.log.note(&[ADDED, 0, 1], bytes);
            Ok(())
        } else {
            self.beside = None; // so a file in part can't take the name
            calls::remove(&self.files, &self.place.new_path);
            self.log.note(&[ADDED, 0, 0], bytes);
            Err(DeviceError::Failed)
        }
    }

    // No other process may replace the parts before the last one meanwhile.
    fn take_place(&mut self) -> Result<(), DeviceError> {
        if self.has_failed || self.beside.is_none() || !calls::lock(&self.place.folder) {
            return Err(self.refuse());
        }
        self.settle()?; // first the new file is on the disk
        self.take_name()?; // then it has the name
        self.sync_folder()?; // now its name is durable
        Ok(())
    }

    fn split(&mut self) -> Result<(), DeviceError> {
        if self.has_failed || self.is_moved || self.place.is_beginning {
            return Err(self.refuse());
        }
        self.begin_part()?; // first its bytes are written
        self.settle_part()?; // then they are on the disk
        self.name_part()?; // then it has the name
        self.keep_part()?; // now its name is durable
        Ok(())
    }
}
