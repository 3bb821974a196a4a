//! Two small files beside the journal: what an opening cut off, and the mark of a failed sync.
//!
//! # Why
//! A commit byte that the disk changes makes all after it count for nothing, and no checksum sees
//! it. A crash may leave bytes after a clear commit byte, too, so an opening can't refuse them. It
//! saves them before it cuts them off.
//!
//! After a failed sync the system may take a page for written that isn't. So the next opening may
//! read what the disk doesn't have, and its own sync succeeds. The mark makes it write all anew.
//! The mark needs no sync: a crash that loses it loses those pages as well.

use crate::file::FileFault;
use crate::file::opening::{new_file, open_new};
use crate::file::place::Place;
use std::fs;
use std::fs::{File, Files};
use std::io::ErrorKind;
use std::os::unix::fs::FileExt;

/// Writes these bytes to a new file `journal.cut`, which replaces an older one, and makes it
/// durable. Returns whether all of that was done.
pub(crate) fn save_cut<R: Files<File = File>>(files: &R, place: &Place, bytes: &[u8]) -> bool {
    try_to_save(files, place, bytes).is_ok()
}

fn try_to_save<R: Files<File = File>>(
    files: &R,
    place: &Place,
    bytes: &[u8],
) -> Result<(), FileFault> {
    let file = new_file(files, &place.cut_path)?;
    file.write_all_at(bytes, 0)?;
    file.sync_all()?;
    Ok(place.folder.sync_all()?)
}

/// Makes an empty file `journal.failed`, if that can be done. A file that is to replace the parts
/// before the last one may fail: those stay as they are, so there is no mark.
pub(crate) fn mark_failed<R: Files<File = File>>(files: &R, place: &Place) {
    if !place.is_beginning {
        let _ = open_new(files, &place.failed_path);
    }
}

/// Returns whether a file `journal.failed` exists.
pub(crate) fn is_marked<R: Files<File = File>>(
    files: &R,
    place: &Place,
) -> Result<bool, FileFault> {
    match fs::symlink_metadata(files, &place.failed_path) {
        Err(error) if error.kind() == ErrorKind::NotFound => Ok(false),
        found => {
            found?;
            Ok(true)
        }
    }
}
