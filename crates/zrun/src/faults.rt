//! Why there is no cluster, and why a call has no reply.

ghost use Rattle.std.specs.Prelude.{◌≡◌};

use thiserror::Error;
use zalloc::Memory;
use zclient::BeginFault;

/// Why no cluster was started. No thread of it is left running.
#[derive(Clone, Copy, Debug, Drop, PartialEq, Eq, Error)]
pub enum StartFault {
    /// Out of memory.
    #[error("Memory")]
    Memory,
    /// A thread could not be started.
    #[error("Thread")]
    Thread,
}

/// Why a call has no reply.
#[derive(Clone, Copy, Debug, Drop, PartialEq, Eq, Error)]
pub enum Unanswered {
    /// The client has an outstanding call. Nothing was invoked.
    #[error("Busy")]
    Busy,
    /// Out of memory. Nothing was invoked.
    #[error("Memory")]
    Memory,
    /// The client has no call numbers left. Nothing was invoked.
    #[error("Exhausted")]
    Exhausted,
    /// The call was invoked, and has no reply yet.
    #[error("NoAnswer")]
    NoAnswer,
}

impl From<Memory> for StartFault {
    ghost use Rattle.zrun.specs.declared.faults.StartFault.TheVariants as fault;

    ghost from_gives = { λ _ given. given ≡ fault.Memory };

    fn from(_: Memory) -> StartFault {
        StartFault::Memory
    }
}

impl From<BeginFault> for Unanswered {
    ghost use Rattle.zrun.specs.Faults.{unanswered_by};

    ghost from_gives = { λ fault given. given ≡ unanswered_by fault };

    fn from(fault: BeginFault) -> Unanswered {
        match fault {
            BeginFault::Busy => Unanswered::Busy,
            BeginFault::Memory => Unanswered::Memory,
            BeginFault::Exhausted => Unanswered::Exhausted,
        }
    }
}
