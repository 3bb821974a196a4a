//! Why a text isn't a log.

ghost use Rattle.std.specs.Prelude.{◌≡◌};
ghost use Rattle.zwire.specs.declared.records.fault.RecordFault.TheVariants.{Memory as OfMemory};

use std::alloc::AllocFailed;
use thiserror::Error;
use zalloc::Memory;

/// Why no records were read.
#[derive(Clone, Copy, Debug, PartialEq, Eq, Error)]
pub enum RecordFault {
    /// The line with this number, the first being 1, isn't a record. Those before it are.
    #[error("line {0} is no record")]
    Line(usize),
    /// Out of memory. It says nothing about the text.
    #[error("memory")]
    Memory,
}

impl From<Memory> for RecordFault {
    ghost from_gives = { λ _ fault. fault ≡ OfMemory };

    fn from(_error: Memory) -> RecordFault {
        RecordFault::Memory
    }
}

impl<T: Drop> From<AllocFailed<T>> for RecordFault {
    ghost from_gives = { λ _ fault. fault ≡ OfMemory };

    fn from(_error: AllocFailed<T>) -> RecordFault {
        RecordFault::Memory
    }
}
