//! How the file of a folder is found, locked and read, and how a new one is made beside it.
//!
//! # Why
//! The lock is `flock` on the file itself: it ends with the process, so no stale lock file remains.
//! A process that opened the file just before a rename could lock a file without a name: so an
//! opening checks the name again under its lock. Each opening syncs the file, its folder and the
//! folder above, since an earlier process may have been killed before it did.
//!
//! The folder has a lock too, which is that of the parts before the last one. A server may leave it
//! to a process that replaces them.
//!
//! Two processes may find the folder missing at once. The one that makes it second opens it as it
//! is, and then finds the file locked.

use crate::file::FileFault;
use crate::file::marks::{is_marked, mark_failed};
use crate::file::parts::{open_part, part_before, read_parts};
use crate::file::place::{Place, joined};
use std::alloc::Global;
use std::fs;
use std::fs::{DirBuilder, File, Files, OpenOptions};
use std::io::ErrorKind;
use std::os::unix::fs::{DirBuilderExt, MetadataExt, OpenOptionsExt};

/// What was found in a folder.
#[derive(Drop)]
pub(crate) struct Opened {
    pub(crate) place: Place,
    /// The file, locked as long as it is open.
    pub(crate) file: File,
    /// Its content.
    pub(crate) bytes: Vec<u8>,
    /// Whether a sync failed in an earlier process: then the content may not be durable.
    pub(crate) had_failed: bool,
}

/// The file of the folder with its content, durable unless a sync has failed. Both are made where
/// they are missing. An unfinished new file is ignored.
pub(crate) fn open_locked<R: Files<File = File>>(
    alloc: Global,
    files: &R,
    folder: &str,
) -> Result<Opened, FileFault> {
    let handle = open_folder(alloc, files, folder)?;
    let mut place = Place::new(alloc, folder, handle)?;
    place.folder.try_lock()?;
    let file = open_file(files, &place.path)?;
    lock(files, &file, &place.path)?;
    let had_failed = is_marked(files, &place)?;
    sync(files, &place, &file)?;
    let above = joined(alloc, folder, "/..")?;
    File::open(files, &above)?.sync_all()?;
    let bytes = read_parts(files, &mut place, &file)?;
    Ok(Opened {
        place,
        file,
        bytes,
        had_failed,
    })
}

/// The parts before the last one, durable, if there are several and no sync has failed. Nothing is
/// made. The last part may be locked, and the folder is locked.
pub(crate) fn open_beginning<R: Files<File = File>>(
    alloc: Global,
    files: &R,
    folder: &str,
) -> Result<Option<Opened>, FileFault> {
    let handle = File::open(files, &joined(alloc, folder, "/")?)?;
    let mut place = Place::new(alloc, folder, handle)?;
    place.folder.try_lock()?;
    let number = part_before(&open_part(files, &place.path)?)?;
    if number == 0 || is_marked(files, &place)? {
        return Ok(None);
    }
    place.begin_with(number)?;
    let file = open_part(files, &place.path)?;
    let before = part_before(&file)?;
    if before == 0 {
        return Ok(None);
    }
    if before >= number {
        return Err(FileFault::Parts);
    }
    sync(files, &place, &file)?;
    let bytes = read_parts(files, &mut place, &file)?;
    Ok(Some(Opened {
        place,
        file,
        bytes,
        had_failed: false,
    }))
}

// Makes the file and its name durable.
fn sync<R: Files<File = File>>(files: &R, place: &Place, file: &File) -> Result<(), FileFault> {
    let synced = match file.sync_all() {
        Ok(()) => place.folder.sync_all(),
        failed => failed,
    };
    if synced.is_err() {
        mark_failed(files, place);
    }
    Ok(synced?)
}

// Locks the file. Another may have taken its name since it was opened: then the process that put it
// there has the folder open.
fn lock<R: Files<File = File>>(files: &R, file: &File, path: &str) -> Result<(), FileFault> {
    file.try_lock()?;
    let held = file.metadata()?;
    if !held.is_file() {
        return Err(FileFault::NotFile);
    }
    let found = fs::symlink_metadata(files, path)?;
    if found.dev() == held.dev() && found.ino() == held.ino() {
        Ok(())
    } else {
        Err(FileFault::InUse)
    }
}

/// A new, empty, locked file. A file that had its name is removed. It is locked before it can take
/// the other name, so no other process can lock it after that.
pub(crate) fn new_file<R: Files<File = File>>(files: &R, path: &str) -> Result<File, FileFault> {
    remove_old(files, path)?;
    let file = open_new(files, path)?;
    file.try_lock()?;
    Ok(file)
}

/// Removes a file, if there is one.
pub(crate) fn remove_old<R: Files<File = File>>(files: &R, path: &str) -> Result<(), FileFault> {
    match fs::remove_file(files, path) {
        Err(error) if error.kind() == ErrorKind::NotFound => Ok(()),
        removed => Ok(removed?),
    }
}

/// Makes a file that doesn't exist yet, for its owner alone. Its descriptor is copied to one above
/// 2.
pub(crate) fn open_new<R: Files<File = File>>(files: &R, path: &str) -> Result<File, FileFault> {
    let mut options = OpenOptions::new();
    options.read(true).write(true).create_new(true).mode(0o600);
    Ok(options.open(files, path)?.try_clone()?)
}

// The folder; where it is made, its owner alone may enter it. Its name ends with a slash, so that
// only a folder is opened.
fn open_folder<R: Files<File = File>>(
    alloc: Global,
    files: &R,
    folder: &str,
) -> Result<File, FileFault> {
    if folder.is_empty() {
        return Err(FileFault::NotFile);
    }
    let path = joined(alloc, folder, "/")?;
    match File::open(files, &path) {
        Err(error) if error.kind() == ErrorKind::NotFound => make_folder(files, folder, &path),
        found => Ok(found?),
    }
}

// Makes the folder, unless another process has made it meanwhile.
fn make_folder<R: Files<File = File>>(
    files: &R,
    folder: &str,
    path: &str,
) -> Result<File, FileFault> {
    match DirBuilder::new().mode(0o700).create(files, folder) {
        Err(error) if error.kind() == ErrorKind::AlreadyExists => match File::open(files, path) {
            // The name exists, and nothing at it: it is a link.
            Err(error) if error.kind() == ErrorKind::NotFound => Err(FileFault::DanglingLink),
            found => Ok(found?),
        },
        made => {
            made?;
            Ok(File::open(files, path)?)
        }
    }
}

// The file; where it is made, its owner alone may read it. No link is followed at its name. Its
// descriptor is copied to one above 2, since output for a closed standard stream must not land in
// it.
fn open_file<R: Files<File = File>>(files: &R, path: &str) -> Result<File, FileFault> {
    let mut options = OpenOptions::new();
    options.read(true).write(true).create_new(true).mode(0o600);
    let first = match options.open(files, path) {
        Err(error) if error.kind() == ErrorKind::AlreadyExists => {
            if fs::symlink_metadata(files, path)?.is_symlink() {
                return Err(FileFault::NotFile);
            }
            options.create_new(false).open(files, path)?
        }
        made => made?,
    };
    Ok(first.try_clone()?)
}
