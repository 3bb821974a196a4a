//! What ends a service before its host does.

ghost use Rattle.std.specs.Prelude.{◌≡◌};

use std::alloc::{AllocError, AllocFailed};
use std::fmt;
use thiserror::Error;
use zalloc::Memory;

/// What ended a service before its host did.
#[derive(Clone, Copy, Debug, PartialEq, Eq, Error)]
pub enum ServeFault {
    /// Memory ran out.
    Memory,
    /// The source failed.
    Read,
    /// The bytes of the source aren't those of a host.
    NoInput,
    /// The sink failed.
    Write,
    /// The disk failed.
    Disk,
    /// The journal is full.
    Full,
    /// The service had ended before.
    Ended,
}

impl ServeFault {
    ghost use Rattle.zdaemon.specs.Faults.{serve_fault_text};

    /// Returns the message that a program prints for it.
    pub fn text(self) -> &'static str
        ensures { result.now ≡ serve_fault_text self }
    {
        match self {
            ServeFault::Memory => "memory",
            ServeFault::Read => "read failed",
            ServeFault::NoInput => "no input of a host",
            ServeFault::Write => "write failed",
            ServeFault::Disk => "data: the disk failed",
            ServeFault::Full => "data: the journal is full",
            ServeFault::Ended => "data: the service has ended",
        }
    }
}

impl fmt::Display for ServeFault {
    ghost use Rattle.std.specs.Prelude.{Some};
    ghost use Rattle.zdaemon.specs.Faults.{serve_fault_text};

    ghost output = { λ fault. Some (serve_fault_text fault) };

    fn fmt<W: fmt::Write>(&self, f: &mut fmt::Formatter<W>) -> fmt::Result {
        f.write_str(self.text())
    }
}

impl From<Memory> for ServeFault {
    ghost use Rattle.zdaemon.specs.declared.pipe.fault.ServeFault.TheVariants as fault;

    ghost from_gives = { λ _ e. e ≡ fault.Memory };

    fn from(_: Memory) -> ServeFault {
        ServeFault::Memory
    }
}

impl From<AllocError> for ServeFault {
    ghost use Rattle.zdaemon.specs.declared.pipe.fault.ServeFault.TheVariants as fault;

    ghost from_gives = { λ _ e. e ≡ fault.Memory };

    fn from(_: AllocError) -> ServeFault {
        ServeFault::Memory
    }
}

impl<T: Drop> From<AllocFailed<T>> for ServeFault {
    ghost use Rattle.zdaemon.specs.declared.pipe.fault.ServeFault.TheVariants as fault;

    ghost from_gives = { λ _ e. e ≡ fault.Memory };

    fn from(_: AllocFailed<T>) -> ServeFault {
        ServeFault::Memory
    }
}
