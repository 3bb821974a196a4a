//! Why a frame isn't written.

ghost use Rattle.std.specs.Prelude.{◌≡◌};
ghost use Rattle.zjute.specs.declared.fault.WriteError.TheVariants.{Memory};

use std::alloc::AllocError;
use thiserror::Error;

/// Why no frame was written.
#[derive(Clone, Copy, Debug, PartialEq, Eq, Error)]
pub enum WriteError {
    /// The frame would have more than `MAX_FRAME` bytes after its length.
    #[error("the frame would be too long")]
    TooLong,
    /// Out of memory.
    #[error("memory")]
    Memory,
}

impl From<AllocError> for WriteError {
    ghost from_gives = { λ _ error. error ≡ Memory };

    fn from(_error: AllocError) -> WriteError {
        WriteError::Memory
    }
}
