//! Why a text isn't a path.

ghost use Rattle.std.specs.Prelude.{◌≡◌};
ghost use Rattle.zpath.specs.declared.fault.PathFault.TheVariants.{Memory};

use std::alloc::{AllocError, AllocFailed};
use std::fmt;
use thiserror::Error;

/// The first fault of a text, in the order of the variants. Each test looks at the whole text.
#[derive(Clone, Copy, Debug, PartialEq, Eq, Error)]
pub enum PathFault {
    /// The text has no bytes.
    Empty,
    /// The first byte isn't a slash.
    NotAbsolute,
    /// A name is empty: there are two slashes in a row, or a slash at the end.
    EmptyName,
    /// A name is `.` or `..`.
    DotName,
    /// A name has a byte outside `0x21..=0x7E`.
    BadByte,
    /// A name has more than `MAX_NAME_LEN` bytes.
    NameTooLong,
    /// The text has more than `MAX_TEXT_LEN` bytes.
    PathTooLong,
    /// There are more than `MAX_DEPTH` names.
    TooDeep,
    /// The first name is `zookeeper`.
    Reserved,
    /// Out of memory. It says nothing about the text.
    Memory,
}

impl fmt::Display for PathFault {
    ghost use Rattle.std.specs.Prelude.{Some};
    ghost use Rattle.zpath.specs.Faults.{fault_name};

    ghost output = { λ fault. Some (fault_name fault) };

    fn fmt<W: fmt::Write>(&self, f: &mut fmt::Formatter<W>) -> fmt::Result {
        f.write_str(match self {
            PathFault::Empty => "Empty",
            PathFault::NotAbsolute => "NotAbsolute",
            PathFault::EmptyName => "EmptyName",
            PathFault::DotName => "DotName",
            PathFault::BadByte => "BadByte",
            PathFault::NameTooLong => "NameTooLong",
            PathFault::PathTooLong => "PathTooLong",
            PathFault::TooDeep => "TooDeep",
            PathFault::Reserved => "Reserved",
            PathFault::Memory => "Memory",
        })
    }
}

impl From<AllocError> for PathFault {
    ghost from_gives = { λ _ fault. fault ≡ Memory };

    fn from(_error: AllocError) -> PathFault {
        PathFault::Memory
    }
}

impl<T: Drop> From<AllocFailed<T>> for PathFault {
    ghost from_gives = { λ _ fault. fault ≡ Memory };

    fn from(_error: AllocFailed<T>) -> PathFault {
        PathFault::Memory
    }
}

impl From<zalloc::Memory> for PathFault {
    ghost from_gives = { λ _ fault. fault ≡ Memory };

    fn from(_error: zalloc::Memory) -> PathFault {
        PathFault::Memory
    }
}
