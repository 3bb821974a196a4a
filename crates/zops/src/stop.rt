//! Why a part, or a whole multi, did nothing.

ghost use Rattle.std.specs.Prelude.{◌≡◌};
ghost use Rattle.zops.specs.declared.stop.Stop.TheVariants.{Memory as no_memory};
ghost use Rattle.zops.specs.declared.stop.Halt.TheVariants.{Memory as no_memory_left};

use std::alloc::{AllocError, AllocFailed};
use zalloc::Memory;
use zcalls::Refusal;

/// Why a part did nothing.
#[derive(Clone, Copy, Debug, PartialEq, Eq)]
pub(crate) enum Stop {
    /// It was refused.
    Refused(Refusal),
    /// Out of memory.
    Memory,
}

impl From<Memory> for Stop {
    ghost from_gives = { λ _ stop. stop ≡ no_memory };

    fn from(_memory: Memory) -> Stop {
        Stop::Memory
    }
}

impl From<AllocError> for Stop {
    ghost from_gives = { λ _ stop. stop ≡ no_memory };

    fn from(_refused: AllocError) -> Stop {
        Stop::Memory
    }
}

/// Why not all the parts of a multi were done.
#[derive(Clone, Copy, Debug, PartialEq, Eq)]
pub(crate) enum Halt {
    /// The part with this number, counted from 1, was refused.
    Refused(usize, Refusal),
    /// Out of memory.
    Memory,
}

impl<T: Drop> From<AllocFailed<T>> for Halt {
    ghost from_gives = { λ _ halt. halt ≡ no_memory_left };

    fn from(_error: AllocFailed<T>) -> Halt {
        Halt::Memory
    }
}

impl From<AllocError> for Halt {
    ghost from_gives = { λ _ halt. halt ≡ no_memory_left };

    fn from(_refused: AllocError) -> Halt {
        Halt::Memory
    }
}
