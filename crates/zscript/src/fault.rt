//! Why a script was not played to its end.

ghost use Rattle.std.specs.Prelude.{◌≡◌, Some};
ghost use Rattle.zscript.specs.declared.fault.PlayFault.TheVariants.{Memory};

use std::alloc::{AllocError, AllocFailed};
use std::fmt;
use thiserror::Error;

/// What stopped a script before its end.
#[derive(Clone, Copy, Debug, PartialEq, Eq, Error)]
pub enum PlayFault {
    /// The source failed.
    Read,
    /// The sink failed.
    Write,
    /// Memory ran out.
    Memory,
}

impl PlayFault {
    ghost use Rattle.zscript.specs.Outcome.{play_fault_text};

    /// Returns the text that a program prints.
    pub fn text(self) -> &'static str
        ensures { result.now ≡ play_fault_text self }
    {
        match self {
            PlayFault::Read => "zk: read failed",
            PlayFault::Write => "zk: write failed",
            PlayFault::Memory => "zk: memory",
        }
    }
}

// By hand: the `Display` that `thiserror` derives has no `output`, so no clause could say what it
// writes.
impl fmt::Display for PlayFault {
    ghost use Rattle.zscript.specs.Outcome.{play_fault_text};

    ghost output = { λ fault. Some (play_fault_text fault) };

    fn fmt<W: fmt::Write>(&self, f: &mut fmt::Formatter<W>) -> fmt::Result {
        f.write_str(self.text())
    }
}

impl From<zalloc::Memory> for PlayFault {
    ghost from_gives = { λ _ fault. fault ≡ Memory };

    fn from(_fault: zalloc::Memory) -> PlayFault {
        PlayFault::Memory
    }
}

impl From<AllocError> for PlayFault {
    ghost from_gives = { λ _ fault. fault ≡ Memory };

    fn from(_fault: AllocError) -> PlayFault {
        PlayFault::Memory
    }
}

impl<T: Drop> From<AllocFailed<T>> for PlayFault {
    ghost from_gives = { λ _ fault. fault ≡ Memory };

    fn from(_fault: AllocFailed<T>) -> PlayFault {
        PlayFault::Memory
    }
}
