//! Why a watch isn't set.

ghost use Rattle.std.specs.Prelude.{◌≡◌};
ghost use Rattle.zwatches.specs.declared.fault.WatchFault.TheVariants.{Memory as OfMemory};

use std::alloc::{AllocError, AllocFailed};
use thiserror::Error;
use zalloc::Memory;

/// Why a watch isn't set.
#[derive(Clone, Copy, Debug, PartialEq, Eq, Error)]
pub enum WatchFault {
    /// There are as many watches as a limit allows, and this one isn't among them.
    #[error("there are too many watches")]
    Full,
    /// Out of memory.
    #[error("memory")]
    Memory,
}

impl From<Memory> for WatchFault {
    ghost from_gives = { λ _ fault. fault ≡ OfMemory };

    fn from(_error: Memory) -> WatchFault {
        WatchFault::Memory
    }
}

impl From<AllocError> for WatchFault {
    ghost from_gives = { λ _ fault. fault ≡ OfMemory };

    fn from(_error: AllocError) -> WatchFault {
        WatchFault::Memory
    }
}

impl<T: Drop> From<AllocFailed<T>> for WatchFault {
    ghost from_gives = { λ _ fault. fault ≡ OfMemory };

    fn from(_error: AllocFailed<T>) -> WatchFault {
        WatchFault::Memory
    }
}
