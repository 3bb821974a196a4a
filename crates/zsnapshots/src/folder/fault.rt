//! Why no tree is read.

ghost use Rattle.std.specs.Prelude.{◌≡◌};
ghost use Rattle.zsnapshots.specs.declared.folder.fault.ReadFault.TheVariants.{Memory as OfMemory};

use thiserror::Error;
use zalloc::Memory;

/// Why a text isn't read as a tree.
#[derive(Clone, Copy, Debug, PartialEq, Eq, Error)]
pub enum ReadFault {
    /// The text represents no tree.
    #[error("not the text of a state")]
    NotRecords,
    /// Out of memory. It says nothing about the text.
    #[error("out of memory")]
    Memory,
}

impl From<Memory> for ReadFault {
    ghost from_gives = { λ _ fault. fault ≡ OfMemory };

    fn from(_: Memory) -> ReadFault {
        ReadFault::Memory
    }
}
