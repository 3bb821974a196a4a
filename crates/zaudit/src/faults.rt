//! Why an audit fails.

ghost use Rattle.std.specs.Prelude.{◌≡◌};
ghost use Rattle.zaudit.specs.declared.faults.AuditFault.TheVariants.{Memory};

use std::fmt;
use thiserror::Error;

/// Why an audit fails: the first that holds, in this order, except `Memory`.
#[derive(Clone, Copy, Debug, PartialEq, Eq, Error)]
pub enum AuditFault {
    /// A trace is cut: nothing is known of the run.
    Cut,
    /// The timestamps of a trace don't rise, or an event isn't enabled at its position.
    Disorder,
    /// A client's record differs from the events of that client in the run's history.
    Mismatch,
    /// Memory ran out.
    Memory,
}

impl fmt::Display for AuditFault {
    ghost use Rattle.std.specs.Prelude.{Some};
    ghost use Rattle.zaudit.specs.Faults.{fault_name};

    ghost output = { λ fault. Some (fault_name fault) };

    fn fmt<W: fmt::Write>(&self, f: &mut fmt::Formatter<W>) -> fmt::Result {
        f.write_str(match self {
            AuditFault::Cut => "Cut",
            AuditFault::Disorder => "Disorder",
            AuditFault::Mismatch => "Mismatch",
            AuditFault::Memory => "Memory",
        })
    }
}

impl From<zalloc::Memory> for AuditFault {
    ghost from_gives = { λ _ fault. fault ≡ Memory };

    fn from(_fault: zalloc::Memory) -> AuditFault {
        AuditFault::Memory
    }
}
