//! Why an export isn't written.

ghost use Rattle.std.specs.Prelude.{◌≡◌};

use thiserror::Error;
use zalloc::Memory;

/// Why an export isn't written to its end.
#[derive(Clone, Copy, Debug, PartialEq, Eq, Error)]
pub enum ExportFault {
    /// Out of memory.
    #[error("memory")]
    Memory,
    /// The sink failed.
    #[error("output")]
    Write,
}

impl From<Memory> for ExportFault {
    ghost use Rattle.zsnapshots.specs.declared.export.fault.ExportFault.TheVariants as fault;

    ghost from_gives = { λ _ e. e ≡ fault.Memory };

    fn from(_: Memory) -> ExportFault {
        ExportFault::Memory
    }
}
