//! Why a journal isn't opened, and why it doesn't take a batch.

use crate::DeviceError;
use std::alloc::{AllocError, AllocFailed};
use thiserror::Error;

/// Why a file isn't opened. With the last six the file is unchanged.
#[derive(Clone, Copy, Debug, PartialEq, Eq, Error)]
pub enum OpenError {
    /// Out of memory.
    #[error("out of memory")]
    Memory,
    /// The disk failed.
    #[error("the disk failed")]
    Failed,
    /// The file doesn't begin as a journal does.
    #[error("not a journal")]
    NotJournal,
    /// The journal has the format of this other version, which isn't an older one.
    #[error("a journal of version {0}")]
    Version(u8),
    /// The journal has the format of an older version of this program.
    #[error("a folder of an older version: ./zk upgrade FOLDER")]
    Old,
    /// The journal is that of another program.
    #[error("a journal of something else")]
    Other,
    /// The journal is that of a service with this other number of servers.
    #[error("a journal for {0} server{end}", end = plural_end(.0))]
    Servers(u8),
    /// The block whose commit byte has this index is not what was written.
    #[error("damaged at byte {0}")]
    Damaged(usize),
}

/// Why a batch wasn't appended.
#[derive(Clone, Copy, Debug, PartialEq, Eq, Error)]
pub enum PutError {
    /// Out of memory. Either no device call was made, or the journal takes nothing more. If a new
    /// file isn't begun or written, the journal takes batches as before.
    #[error("out of memory")]
    Memory,
    /// The disk failed. A later opening shows whether the batch is in the file. If a new file isn't
    /// begun or written, the journal takes batches as before.
    #[error("the disk failed")]
    Failed,
    /// The batch has a byte 0.
    #[error("a byte 0 in a batch")]
    NotText,
    /// The file has 2 ^ 60 bytes or more.
    #[error("the journal is full")]
    Full,
    /// An earlier call failed: the journal makes no more device calls. Open the file again.
    #[error("the journal has failed")]
    Closed,
}

// What a word ends with after this number.
fn plural_end(count: &u8) -> &'static str {
    if *count == 1 { "" } else { "s" }
}

impl From<DeviceError> for OpenError {
    ghost use Rattle.zjournal.specs.Faults.{open_error};
    ghost use Rattle.std.specs.Prelude.{◌≡◌};

    ghost from_gives = { λ cause e. e ≡ open_error cause };

    fn from(cause: DeviceError) -> Self {
        match cause {
            DeviceError::Memory => OpenError::Memory,
            DeviceError::Failed => OpenError::Failed,
        }
    }
}

impl From<DeviceError> for PutError {
    ghost use Rattle.zjournal.specs.Faults.{put_error};
    ghost use Rattle.std.specs.Prelude.{◌≡◌};

    ghost from_gives = { λ cause e. e ≡ put_error cause };

    fn from(cause: DeviceError) -> Self {
        match cause {
            DeviceError::Memory => PutError::Memory,
            DeviceError::Failed => PutError::Failed,
        }
    }
}

impl From<AllocError> for OpenError {
    ghost use Rattle.zjournal.specs.declared.fault.OpenError.TheVariants.{Memory};
    ghost use Rattle.std.specs.Prelude.{◌≡◌};

    ghost from_gives = { λ _ e. e ≡ Memory };

    fn from(_: AllocError) -> Self {
        OpenError::Memory
    }
}

impl<T: Drop> From<AllocFailed<T>> for OpenError {
    ghost use Rattle.zjournal.specs.declared.fault.OpenError.TheVariants.{Memory};
    ghost use Rattle.std.specs.Prelude.{◌≡◌};

    ghost from_gives = { λ _ e. e ≡ Memory };

    fn from(_: AllocFailed<T>) -> Self {
        OpenError::Memory
    }
}

impl From<AllocError> for PutError {
    ghost use Rattle.zjournal.specs.declared.fault.PutError.TheVariants.{Memory};
    ghost use Rattle.std.specs.Prelude.{◌≡◌};

    ghost from_gives = { λ _ e. e ≡ Memory };

    fn from(_: AllocError) -> Self {
        PutError::Memory
    }
}

impl<T: Drop> From<AllocFailed<T>> for PutError {
    ghost use Rattle.zjournal.specs.declared.fault.PutError.TheVariants.{Memory};
    ghost use Rattle.std.specs.Prelude.{◌≡◌};

    ghost from_gives = { λ _ e. e ≡ Memory };

    fn from(_: AllocFailed<T>) -> Self {
        PutError::Memory
    }
}
