//! Why bytes aren't a frame, and why none is written.

ghost use Rattle.std.specs.Prelude.{◌≡◌};
ghost use Rattle.zwire.specs.declared.fault.WriteError.TheVariants.{Memory};

use std::alloc::AllocError;
use thiserror::Error;
use zcodec::Fault;

/// Why no frame was read.
#[derive(Clone, Copy, Debug, PartialEq, Eq, Error)]
pub enum FrameFault {
    /// The bytes end before the frame does: more are needed.
    #[error("the frame is cut")]
    Cut,
    /// The length is above `MAX_FRAME`.
    #[error("the frame is too long")]
    TooLong,
    /// The bytes after the length aren't a message. More bytes don't change that.
    #[error("the frame has no message: {0}")]
    Contents(Fault),
    /// Out of memory. It says nothing about the bytes.
    #[error("memory")]
    Memory,
}

/// Why no frame was written.
#[derive(Clone, Copy, Debug, PartialEq, Eq, Error)]
pub enum WriteError {
    /// It would have more than `MAX_FRAME` bytes after its length.
    #[error("the frame would be too long")]
    TooLong,
    /// Out of memory.
    #[error("memory")]
    Memory,
}

impl From<AllocError> for WriteError {
    ghost from_gives = { λ _ error. error ≡ Memory };

    fn from(_error: AllocError) -> WriteError {
        WriteError::Memory
    }
}
