//! The system calls that read and change a file. Each returns whether all of it was done.

use std::fs;
use std::fs::{File, Files};
use std::io::Write;
use std::os::unix::fs::{FileExt, MetadataExt};

// After so many bytes that are freed, a file is synced.
const STEP: usize = 1 << 20;

/// Writes all the bytes at this offset.
pub(crate) fn write_all(file: &File, at: usize, bytes: &[u8]) -> bool {
    file.write_all_at(bytes, at as u64).is_ok()
}

/// Cuts the file to this length.
pub(crate) fn cut(file: &File, len: usize) -> bool {
    file.set_len(len as u64).is_ok()
}

/// Frees the bytes of a file that has lost all its names. It is cut in steps, each made durable:
/// one long cut would hold up the syncs of a server.
pub(crate) fn free(file: &File) {
    let mut left = match file.metadata() {
        Ok(found) if found.nlink() == 0 => found.len() as usize,
        _ => return,
    };
    while left > STEP {
        left -= STEP;
        if !cut(file, left) || !sync(file) {
            return;
        }
    }
    cut(file, 0);
}

/// Waits until what was written is durable.
pub(crate) fn sync(file: &File) -> bool {
    file.sync_data().is_ok()
}

/// Writes all the bytes at the end of a file that no one else writes.
pub(crate) fn append(mut file: &File, bytes: &[u8]) -> bool {
    file.write_all(bytes).is_ok()
}

/// Waits until a file with its length, or a folder with its names, is durable.
pub(crate) fn sync_all(file: &File) -> bool {
    file.sync_all().is_ok()
}

/// Gives a file the name of another, which loses it.
pub(crate) fn rename<R: Files<File = File>>(files: &R, from: &str, to: &str) -> bool {
    fs::rename(files, from, to).is_ok()
}

/// Removes a file.
pub(crate) fn remove<R: Files<File = File>>(files: &R, path: &str) -> bool {
    fs::remove_file(files, path).is_ok()
}

/// Takes the lock of a folder, unless another process has it.
pub(crate) fn lock(folder: &File) -> bool {
    folder.try_lock().is_ok()
}

/// Releases the lock of a folder.
pub(crate) fn unlock(folder: &File) -> bool {
    folder.unlock().is_ok()
}
