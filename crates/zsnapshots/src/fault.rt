//! Why rows aren't a state.

ghost use Rattle.std.specs.Prelude.{◌≡◌};
ghost use Rattle.zsnapshots.specs.support.Faults.{of_frame, of_restoring};

use thiserror::Error;
use zcodec::Fault;
use zops::RestoreFault;
use zwire::FrameFault;

/// Why no row was taken.
#[derive(Clone, Copy, Debug, PartialEq, Eq, Error)]
pub enum RowFault {
    /// The bytes end before the row does: more are needed.
    #[error("the row is cut")]
    Cut,
    /// The row's length is above `MAX_FRAME`.
    #[error("the row is too long")]
    TooLong,
    /// The bytes after the length aren't a row of the kind that comes next.
    #[error("no such row: {0}")]
    Contents(Fault),
    /// The row's key isn't above those of the rows before it.
    #[error("the row is out of order")]
    Unordered,
    /// No state of a machine has this row here.
    #[error("not a row of a lawful state")]
    Unlawful,
    /// Bytes follow the row, where it must be alone.
    #[error("bytes follow the row")]
    Trailing,
    /// There is no further row.
    #[error("there is no further row")]
    Ended,
    /// Out of memory. It says nothing about the row.
    #[error("memory")]
    Memory,
}

impl From<FrameFault> for RowFault {
    ghost from_gives = { λ fault row. row ≡ of_frame fault };

    fn from(fault: FrameFault) -> RowFault {
        match fault {
            FrameFault::Cut => RowFault::Cut,
            FrameFault::TooLong => RowFault::TooLong,
            FrameFault::Contents(fault) => RowFault::Contents(fault),
            FrameFault::Memory => RowFault::Memory,
        }
    }
}

impl From<RestoreFault> for RowFault {
    ghost from_gives = { λ fault row. row ≡ of_restoring fault };

    fn from(fault: RestoreFault) -> RowFault {
        match fault {
            RestoreFault::Unlawful => RowFault::Unlawful,
            RestoreFault::Memory => RowFault::Memory,
        }
    }
}
