//! Why bytes don't encode a value.

ghost use Rattle.std.specs.Prelude.{◌≡◌};
ghost use Rattle.zcodec.specs.declared.fault.ReadError.TheVariants.{Memory, Fault as OfFault};

use std::alloc::{AllocError, AllocFailed};
use thiserror::Error;

/// The first fault of the bytes, from the left.
#[derive(Clone, Copy, Debug, PartialEq, Eq, Error)]
pub enum Fault {
    /// The bytes end before the value does.
    #[error("the bytes end too early")]
    Short,
    /// A length or a count is above its limit. Read as unsigned, a negative one is above every
    /// limit; -1 alone may mean null.
    #[error("a length is above its limit")]
    Long,
    /// A field has a value that it can't have, such as a flag of 2 or an unknown tag.
    #[error("a field is invalid")]
    Invalid,
    /// Bytes follow the value.
    #[error("bytes follow the value")]
    Trailing,
}

/// Why no value was read.
#[derive(Clone, Copy, Debug, PartialEq, Eq, Error)]
pub enum ReadError {
    /// The bytes don't encode a value.
    #[error("{0}")]
    Fault(Fault),
    /// Out of memory. It says nothing about the bytes.
    #[error("memory")]
    Memory,
}

impl From<Fault> for ReadError {
    ghost from_gives = { λ fault error. error ≡ OfFault fault };

    fn from(fault: Fault) -> ReadError {
        ReadError::Fault(fault)
    }
}

impl From<AllocError> for ReadError {
    ghost from_gives = { λ _ error. error ≡ Memory };

    fn from(_error: AllocError) -> ReadError {
        ReadError::Memory
    }
}

impl<T: Drop> From<AllocFailed<T>> for ReadError {
    ghost from_gives = { λ _ error. error ≡ Memory };

    fn from(_error: AllocFailed<T>) -> ReadError {
        ReadError::Memory
    }
}
