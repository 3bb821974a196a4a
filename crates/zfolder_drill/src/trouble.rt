//! What can go wrong in a drill.

use std::alloc::{AllocError, AllocFailed};
use std::io;
use thiserror::Error;
use zalloc::Memory;
use zsnapshots::RowFault;
use zsnapshots::folder::ReadFault;

/// Why a drill ended early.
#[derive(Clone, Copy, Debug, PartialEq, Eq, Error)]
pub(crate) enum Trouble {
    /// Memory ran out.
    #[error("memory")]
    Memory,
    /// The input isn't read, or has a seed that is no number.
    #[error("the input")]
    Input,
    /// The machines applied all the entries that they can count.
    #[error("too many entries")]
    Full,
    /// A machine that was read answers otherwise than the one that was written.
    #[error("other answers")]
    Answers,
    /// A machine that was read has other rows.
    #[error("other rows")]
    Rows,
    /// The rows that were written aren't a machine's.
    #[error("rows that are refused")]
    Refused,
    /// A state that was read has another text.
    #[error("another text")]
    Text,
    /// The text that was written represents no state.
    #[error("a text that is refused")]
    Unread,
}

impl From<Memory> for Trouble {
    fn from(_error: Memory) -> Trouble {
        Trouble::Memory
    }
}

impl From<AllocError> for Trouble {
    fn from(_error: AllocError) -> Trouble {
        Trouble::Memory
    }
}

impl<T: Drop> From<AllocFailed<T>> for Trouble {
    fn from(_error: AllocFailed<T>) -> Trouble {
        Trouble::Memory
    }
}

impl From<io::Error> for Trouble {
    fn from(_error: io::Error) -> Trouble {
        Trouble::Input
    }
}

impl From<RowFault> for Trouble {
    fn from(fault: RowFault) -> Trouble {
        match fault {
            RowFault::Memory => Trouble::Memory,
            _ => Trouble::Refused,
        }
    }
}

impl From<ReadFault> for Trouble {
    fn from(fault: ReadFault) -> Trouble {
        match fault {
            ReadFault::Memory => Trouble::Memory,
            ReadFault::NotRecords => Trouble::Unread,
        }
    }
}
