//! What can go wrong in a drill.

use std::alloc::{AllocError, AllocFailed};
use thiserror::Error;
use zalloc::Memory;
use zpath::PathFault;

/// Why a drill ended early.
#[derive(Clone, Copy, Debug, PartialEq, Eq, Error)]
pub enum Trouble {
    /// Memory ran out.
    #[error("memory")]
    Memory,
    /// A number that isn't one of a process, or a text that isn't a path.
    #[error("no such thing")]
    NoSuchThing,
    /// The world still had messages to deliver.
    #[error("not quiet")]
    NotQuiet,
    /// A call wasn't answered though the state was there.
    #[error("not answered")]
    NotAnswered,
    /// The parent didn't have one sequential child.
    #[error("not one child")]
    NotOneChild,
}

impl From<Memory> for Trouble {
    fn from(_error: Memory) -> Trouble {
        Trouble::Memory
    }
}

impl From<AllocError> for Trouble {
    fn from(_error: AllocError) -> Trouble {
        Trouble::Memory
    }
}

impl<T: Drop> From<AllocFailed<T>> for Trouble {
    fn from(_error: AllocFailed<T>) -> Trouble {
        Trouble::Memory
    }
}

impl From<PathFault> for Trouble {
    fn from(_error: PathFault) -> Trouble {
        Trouble::NoSuchThing
    }
}
