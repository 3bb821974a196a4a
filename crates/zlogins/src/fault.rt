//! Why a text isn't a list of logins.

ghost use Rattle.std.specs.Prelude.{◌≡◌};
ghost use Rattle.zlogins.specs.declared.fault.LoginsFault.TheVariants.{Memory as OutOfMemory};

use std::alloc::{AllocError, AllocFailed};
use thiserror::Error;
use zalloc::Memory;

/// The first fault of a text. Lines are counted from 1.
#[derive(Clone, Copy, Debug, PartialEq, Eq, Error)]
pub enum LoginsFault {
    /// This line doesn't begin with the word `digest` and a space.
    #[error("line {0} doesn't begin with 'digest '")]
    NoDigest(usize),
    /// What follows there isn't a user, a colon, and the base64 of 20 bytes.
    #[error("line {0} has no 'user:' and a SHA-1 in base64 after 'digest '")]
    NoHash(usize),
    /// No line has a login.
    #[error("there is no login")]
    Empty,
    /// Out of memory. It says nothing about the text.
    #[error("memory")]
    Memory,
}

impl From<AllocError> for LoginsFault {
    ghost from_gives = { λ _ fault. fault ≡ OutOfMemory };

    fn from(_error: AllocError) -> LoginsFault {
        LoginsFault::Memory
    }
}

impl<T: Drop> From<AllocFailed<T>> for LoginsFault {
    ghost from_gives = { λ _ fault. fault ≡ OutOfMemory };

    fn from(_error: AllocFailed<T>) -> LoginsFault {
        LoginsFault::Memory
    }
}

impl From<Memory> for LoginsFault {
    ghost from_gives = { λ _ fault. fault ≡ OutOfMemory };

    fn from(_error: Memory) -> LoginsFault {
        LoginsFault::Memory
    }
}
