//! Why an entry wasn't played.

ghost use Rattle.std.specs.Prelude.{◌≡◌};
ghost use Rattle.zmaster_log.specs.declared.play_fault.PlayFault.TheVariants.{Memory as OfMemory};

use thiserror::Error;
use zalloc::Memory;

/// Why an entry wasn't played. Nothing has changed then.
#[derive(Clone, Copy, Debug, PartialEq, Eq, Error)]
pub enum PlayFault {
    /// Its index isn't the number of entries that were played: it was played already, or an earlier
    /// one is missing.
    #[error("the entry isn't the next one")]
    NotNext,
    /// `MAX_ENTRIES` entries were played.
    #[error("the log is full")]
    Full,
    /// Out of memory.
    #[error("memory")]
    Memory,
}

impl From<Memory> for PlayFault {
    ghost from_gives = { λ _ fault. fault ≡ OfMemory };

    fn from(_memory: Memory) -> PlayFault {
        PlayFault::Memory
    }
}
