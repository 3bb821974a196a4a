//! Where a file is, and where its last part begins.

use crate::file::FileFault;
use std::alloc::{AllocError, Global};
use std::fs::File;

/// Where a file is. It may have parts: all but the last one are numbered.
#[derive(Drop)]
pub(crate) struct Place {
    alloc: Global,
    /// The folder, open, and locked until it is shared.
    pub(crate) folder: File,
    /// The path of the last part.
    pub(crate) path: String,
    /// The path of a new file, before it replaces all parts or is the last one.
    pub(crate) new_path: String,
    /// The path of a file that is to replace the parts before the last one.
    pub(crate) begin_path: String,
    /// The path of a file with what an opening cuts off.
    pub(crate) cut_path: String,
    /// The path of the mark that a sync has failed.
    pub(crate) failed_path: String,
    // What the path of each numbered part begins with.
    stem: String,
    /// Whether this is without the last part of the folder.
    pub(crate) is_beginning: bool,
    /// The number of the part before the last one; 0 if there is none.
    pub(crate) part: u64,
    /// The index in the content at which the last part begins.
    pub(crate) start: usize,
    /// How many bytes the last part's file has before its content.
    pub(crate) skip: usize,
}

impl Place {
    /// The place of the file in a folder, of which no part is known yet.
    pub(crate) fn new(alloc: Global, folder: &str, handle: File) -> Result<Place, FileFault> {
        Ok(Place {
            alloc,
            folder: handle,
            path: joined(alloc, folder, "/journal")?,
            new_path: joined(alloc, folder, "/journal.new")?,
            begin_path: joined(alloc, folder, "/journal.begin")?,
            cut_path: joined(alloc, folder, "/journal.cut")?,
            failed_path: joined(alloc, folder, "/journal.failed")?,
            stem: joined(alloc, folder, "/journal.")?,
            is_beginning: false,
            part: 0,
            start: 0,
            skip: 0,
        })
    }

    /// Turns it into the place of this part and those before it.
    pub(crate) fn begin_with(&mut self, part: u64) -> Result<(), AllocError> {
        self.path = self.path_of(part)?;
        self.new_path = joined(self.alloc, &self.begin_path, "")?;
        self.is_beginning = true;
        Ok(())
    }

    /// The memory in which its paths are.
    pub(crate) fn alloc(&self) -> Global {
        self.alloc
    }

    /// The path of the part of this number.
    pub(crate) fn path_of(&self, part: u64) -> Result<String, AllocError> {
        format!(in self.alloc; "{}{part}", self.stem)
    }

    /// The offset in the last part's file of the content's byte at this index, if it may be written:
    /// it is in no earlier part, and the folder's last part is here.
    pub(crate) fn offset(&self, at: usize) -> Option<usize> {
        if self.is_beginning {
            return None;
        }
        match at.checked_sub(self.start) {
            Some(at) => at.checked_add(self.skip),
            None => None,
        }
    }

    /// The index of the content's last byte, if the last part's file has this length.
    pub(crate) fn last_index(&self, len: usize) -> Option<usize> {
        match len.checked_sub(self.skip) {
            Some(len) if len > 0 => self.start.checked_add(len - 1),
            _ => None,
        }
    }
}

/// A path in a folder.
pub(crate) fn joined(alloc: Global, folder: &str, name: &str) -> Result<String, AllocError> {
    let mut path = String::new(alloc);
    path.push_str(folder)?;
    path.push_str(name)?;
    Ok(path)
}
