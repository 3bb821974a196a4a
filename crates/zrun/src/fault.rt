//! One fault type for a program that uses a cluster.

ghost use Rattle.std.specs.Prelude.{◌≡◌};

use crate::faults::{StartFault, Unanswered};
use std::alloc::{AllocError, AllocFailed};
use thiserror::Error;
use zalloc::Memory;
use zcalls::{DataFault, Refusal, Reply};
use zchannels::console::Closed;
use zclient::BeginFault;
use zpath::PathFault;

/// Any fault of a program that uses a cluster. Every other fault converts to it, so `?` suffices. A
/// reply of an unexpected kind converts to it too.
#[derive(Clone, Copy, Debug, PartialEq, Eq, Error)]
pub enum Fault {
    /// Out of memory.
    #[error("out of memory")]
    Memory,
    /// A text isn't a path.
    #[error("path: {0}")]
    Path(PathFault),
    /// Bytes can't be a node's data.
    #[error("data: {0}")]
    Data(DataFault),
    /// No cluster was started.
    #[error("start: {0}")]
    Start(StartFault),
    /// A call wasn't invoked, or has no reply.
    #[error("call: {0}")]
    Call(Unanswered),
    /// A call was refused, and changed nothing.
    #[error("refused: {0}")]
    Refused(Refusal),
    /// A multi was refused for this part, counted from 1, and changed nothing.
    #[error("part {0} refused: {1}")]
    PartRefused(usize, Refusal),
    /// A reply is of another kind than the expected one.
    #[error("another reply")]
    OtherReply,
    /// The master's thread has ended, so it hears no order.
    #[error("console: closed")]
    Closed,
    /// A number of a server, of a client or of a timestamp is out of range, or a client isn't
    /// there.
    #[error("no such number")]
    Number,
}

impl From<Memory> for Fault {
    ghost use Rattle.zrun.specs.declared.fault.Fault.TheVariants as any;

    ghost from_gives = { λ _ given. given ≡ any.Memory };

    fn from(_: Memory) -> Fault {
        Fault::Memory
    }
}

impl From<AllocError> for Fault {
    ghost use Rattle.zrun.specs.declared.fault.Fault.TheVariants as any;

    ghost from_gives = { λ _ given. given ≡ any.Memory };

    fn from(_: AllocError) -> Fault {
        Fault::Memory
    }
}

impl<T: Drop> From<AllocFailed<T>> for Fault {
    ghost use Rattle.zrun.specs.declared.fault.Fault.TheVariants as any;

    ghost from_gives = { λ _ given. given ≡ any.Memory };

    fn from(_: AllocFailed<T>) -> Fault {
        Fault::Memory
    }
}

impl From<PathFault> for Fault {
    ghost use Rattle.zrun.specs.declared.fault.Fault.TheVariants as any;

    ghost from_gives = { λ fault given. given ≡ any.Path fault };

    fn from(fault: PathFault) -> Fault {
        Fault::Path(fault)
    }
}

impl From<DataFault> for Fault {
    ghost use Rattle.zrun.specs.declared.fault.Fault.TheVariants as any;

    ghost from_gives = { λ fault given. given ≡ any.Data fault };

    fn from(fault: DataFault) -> Fault {
        Fault::Data(fault)
    }
}

impl From<StartFault> for Fault {
    ghost use Rattle.zrun.specs.declared.fault.Fault.TheVariants as any;

    ghost from_gives = { λ fault given. given ≡ any.Start fault };

    fn from(fault: StartFault) -> Fault {
        Fault::Start(fault)
    }
}

impl From<BeginFault> for Fault {
    ghost use Rattle.zrun.specs.declared.fault.Fault.TheVariants as any;
    ghost use Rattle.zrun.specs.Faults.{unanswered_by};

    ghost from_gives = { λ fault given. given ≡ any.Call (unanswered_by fault) };

    fn from(fault: BeginFault) -> Fault {
        Fault::Call(Unanswered::from(fault))
    }
}

impl From<Unanswered> for Fault {
    ghost use Rattle.zrun.specs.declared.fault.Fault.TheVariants as any;

    ghost from_gives = { λ fault given. given ≡ any.Call fault };

    fn from(fault: Unanswered) -> Fault {
        Fault::Call(fault)
    }
}

impl From<Closed> for Fault {
    ghost use Rattle.zrun.specs.declared.fault.Fault.TheVariants as any;

    ghost from_gives = { λ _ given. given ≡ any.Closed };

    fn from(_: Closed) -> Fault {
        Fault::Closed
    }
}

impl From<Reply> for Fault {
    ghost use Rattle.zrun.specs.Faults.{fault_of};

    ghost from_gives = { λ reply given. given ≡ fault_of reply };

    fn from(reply: Reply) -> Fault {
        let fault = match &reply {
            Reply::Refused(refusal) => Fault::Refused(*refusal),
            Reply::MultiRefused(part, refusal) => Fault::PartRefused(*part, *refusal),
            _ => Fault::OtherReply,
        };
        drop(reply);
        fault
    }
}
