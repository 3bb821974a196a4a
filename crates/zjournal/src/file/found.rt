//! What an opening found: how much, a tail that it cut off, and the mark of a failed sync.

ghost use Rattle.std.specs.Prelude.{◌≡◌};
ghost use Rattle.zjournal.specs.file.File.{beginning_of, had_failed_of, tail_of, waiting_of};

use crate::file::calls::{remove, unlock};
use crate::file::marks::save_cut;
use crate::file::{FileDevice, Tail};
use std::fs::{File, Files};

impl<R: Files<File = File> + Copy> FileDevice<R> {
    /// The number of bytes that wait to be read.
    pub fn waiting(&self) -> usize
        ensures { result ≡ waiting_of self.now }
    {
        match &self.waits {
            Some(bytes) => bytes.len(),
            None => 0,
        }
    }

    /// The end of the file that was cut off at opening. `journal.cut` has its bytes.
    pub fn tail(&self) -> Option<Tail>
        ensures { result ≡ tail_of self.now }
    {
        self.tail
    }

    /// Returns whether a sync failed in an earlier process. Then what was read may not be durable:
    /// all of it is to be written anew, and after that `forget_failure` called.
    pub fn had_failed(&self) -> bool
        ensures { result ≡ had_failed_of self.now }
    {
        self.had_failed
    }

    /// Removes the mark of that failure, if that can be done. If it stays, the next opening writes
    /// all anew once more.
    pub fn forget_failure(&self) {
        remove(&self.files, &self.place.failed_path);
    }

    /// Removes new files that a crash left unfinished, if that can be done. One that this device
    /// has begun stays. To be called before `share`: later, another process may be writing one.
    pub fn remove_unfinished(&self) {
        if self.beside.is_none() {
            remove(&self.files, &self.place.new_path);
            remove(&self.files, &self.place.begin_path);
        }
    }

    /// The number of bytes in the parts before the last one.
    pub fn beginning(&self) -> usize
        ensures { result ≡ beginning_of self.now }
    {
        self.place.start
    }

    /// Releases the folder's lock. From now on another process may replace the parts before the
    /// last one. While it is at work, no new file replaces the whole. One that does takes the lock
    /// again.
    pub fn share(&self) {
        unlock(&self.place.folder);
    }

    // Before a cut to this length: saves what it takes of the bytes that were read at opening. One
    // byte is a clear commit byte, and a file that is being made has nothing to save. Returns what
    // was saved, or an error if that failed.
    pub(super) fn save_tail(&self, len: usize) -> Result<Option<Tail>, ()> {
        let bytes = match &self.waits {
            Some(bytes) => bytes.as_slice(),
            None => return Ok(None),
        };
        match bytes.get(len..) {
            Some(tail) if len > 0 && tail.len() > 1 => {
                if save_cut(&self.files, &self.place, tail) {
                    Ok(Some(Tail {
                        at: len,
                        count: tail.len(),
                    }))
                } else {
                    Err(())
                }
            }
            _ => Ok(None),
        }
    }
}
