//! Why a folder isn't opened.

ghost use Rattle.std.specs.Prelude.{◌≡◌};

use std::alloc::{AllocError, AllocFailed};
use std::fs::TryLockError;
use std::io::ErrorKind;
use std::{fmt, io};
use thiserror::Error;

/// Why a folder isn't opened. What was there is unchanged.
#[derive(Clone, Copy, Debug, PartialEq, Eq, Error)]
pub enum FileFault {
    /// Out of memory.
    Memory,
    /// Another process has it open.
    InUse,
    /// A name belongs to something that isn't a folder, or isn't a regular file.
    NotFile,
    /// This process lacks the rights, or the file system is read-only.
    Denied,
    /// The folder above doesn't exist.
    NoParent,
    /// The folder's name is a link to nothing.
    DanglingLink,
    /// A name is longer than the file system allows.
    LongName,
    /// This process, or the system, has no more descriptors for files.
    NoDescriptor,
    /// The file system can't lock files.
    NoLock,
    /// A part of the file is missing, or the parts don't continue each other.
    Parts,
    /// A system call failed for another reason.
    Io,
}

impl FileFault {
    ghost use Rattle.zjournal.specs.file.Faults.{fault_text};

    /// Returns the message that a program prints for it.
    pub fn text(self) -> &'static str
        ensures { result.now ≡ fault_text self }
    {
        match self {
            FileFault::Memory => "memory",
            FileFault::InUse => "the folder is in use",
            FileFault::NotFile => "not a folder with a regular file",
            FileFault::Denied => "the rights are missing",
            FileFault::NoParent => "the folder above is missing",
            FileFault::DanglingLink => "the folder is a link to nothing",
            FileFault::LongName => "the name is too long",
            FileFault::NoDescriptor => "no file descriptor is left",
            FileFault::NoLock => "the file system has no locks",
            FileFault::Parts => "a part of the journal is missing",
            FileFault::Io => "the disk failed",
        }
    }
}

// Written by hand: the `Display` that `thiserror` derives has no `output`, so no clause could cite
// what it writes.
impl fmt::Display for FileFault {
    ghost use Rattle.std.specs.Prelude.{Some};
    ghost use Rattle.zjournal.specs.file.Faults.{fault_text};

    ghost output = { λ fault. Some (fault_text fault) };

    fn fmt<W: fmt::Write>(&self, f: &mut fmt::Formatter<W>) -> fmt::Result {
        f.write_str(self.text())
    }
}

impl From<AllocError> for FileFault {
    ghost use Rattle.zjournal.specs.declared.file.fault.FileFault.TheVariants.{Memory};

    ghost from_gives = { λ _ e. e ≡ Memory };

    fn from(_: AllocError) -> Self {
        FileFault::Memory
    }
}

impl<T: Drop> From<AllocFailed<T>> for FileFault {
    ghost use Rattle.zjournal.specs.declared.file.fault.FileFault.TheVariants.{Memory};

    ghost from_gives = { λ _ e. e ≡ Memory };

    fn from(_: AllocFailed<T>) -> Self {
        FileFault::Memory
    }
}

// What the system returns for a socket at the name of a file.
const ENXIO: i32 = 6;

// What it returns if it, or this process, has too many open files.
const ENFILE: i32 = 23;

const EMFILE: i32 = 24;

// What it returns for a lock that the file system doesn't support.
const ENOLCK: i32 = 37;

const EOPNOTSUPP: i32 = 95;

impl From<io::Error> for FileFault {
    fn from(error: io::Error) -> Self {
        match error.kind() {
            ErrorKind::OutOfMemory => FileFault::Memory,
            ErrorKind::PermissionDenied | ErrorKind::ReadOnlyFilesystem => FileFault::Denied,
            ErrorKind::IsADirectory | ErrorKind::NotADirectory => FileFault::NotFile,
            ErrorKind::FilesystemLoop => FileFault::NotFile,
            ErrorKind::NotFound => FileFault::NoParent,
            ErrorKind::InvalidFilename => FileFault::LongName,
            _ => match error.raw_os_error() {
                Some(ENXIO) => FileFault::NotFile,
                Some(ENFILE | EMFILE) => FileFault::NoDescriptor,
                _ => FileFault::Io,
            },
        }
    }
}

impl From<TryLockError> for FileFault {
    fn from(error: TryLockError) -> Self {
        match error {
            TryLockError::WouldBlock => FileFault::InUse,
            TryLockError::Error(error) => match error.raw_os_error() {
                Some(ENOLCK | EOPNOTSUPP) => FileFault::NoLock,
                _ => FileFault::from(error),
            },
        }
    }
}
