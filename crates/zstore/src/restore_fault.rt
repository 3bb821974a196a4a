//! Why a row is refused.

ghost use Rattle.std.specs.Prelude.{◌≡◌};
ghost use Rattle.zstore.specs.declared.restore_fault.RestoreFault.TheVariants.{Memory as OfMemory};

use thiserror::Error;
use zalloc::Memory;

/// Why a row can't be put.
#[derive(Clone, Copy, Debug, PartialEq, Eq, Error)]
pub enum RestoreFault {
    /// No lawful tree has this row next, after the rows put so far.
    #[error("not a row of a lawful tree")]
    Unlawful,
    /// Out of memory. It says nothing about the row.
    #[error("memory")]
    Memory,
}

impl From<Memory> for RestoreFault {
    ghost from_gives = { λ _ fault. fault ≡ OfMemory };

    fn from(_error: Memory) -> RestoreFault {
        RestoreFault::Memory
    }
}
