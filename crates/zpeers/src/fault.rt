//! Why a record is refused.

ghost use Rattle.std.specs.Prelude.{◌≡◌};
ghost use Rattle.zpeers.specs.declared.fault.PeerFault.TheVariants.{Memory as OfMemory};
ghost use Rattle.zpeers.specs.support.Faults.{of_row};

use thiserror::Error;
use zalloc::Memory;
use zcodec::Fault;
use zsnapshots::RowFault;

/// Why a record is refused. The records of messages have no fault but `Memory`, if each frame and
/// each state can be read (`messages_come_whole`).
#[derive(Clone, Copy, Debug, PartialEq, Eq, Error)]
pub enum PeerFault {
    /// It has more than `zwire::MAX_FRAME` bytes.
    #[error("the record is too long")]
    TooLong,
    /// No record has this tag.
    #[error("no record has this tag")]
    NoTag,
    /// A frame, while the state of a snapshot is being loaded.
    #[error("a row or the end of a state has to come")]
    RowsAwaited,
    /// A row or an end, while no state is being loaded.
    #[error("no state is being loaded")]
    NothingLoaded,
    /// The bytes aren't a message.
    #[error("the frame has no message: {0}")]
    Contents(Fault),
    /// The frame names another sender.
    #[error("the frame has another sender")]
    OtherSender,
    /// The frame names another receiver.
    #[error("the frame has another receiver")]
    OtherReceiver,
    /// The row isn't the next one of a state.
    #[error("{0}")]
    Row(RowFault),
    /// The end has bytes.
    #[error("the end of a state has bytes")]
    NotEmpty,
    /// The end, before the state is whole.
    #[error("the state isn't whole")]
    Unfinished,
    /// Out of memory. It says nothing about the record.
    #[error("memory")]
    Memory,
}

impl From<Memory> for PeerFault {
    ghost from_gives = { λ _ fault. fault ≡ OfMemory };

    fn from(_memory: Memory) -> PeerFault {
        PeerFault::Memory
    }
}

impl From<RowFault> for PeerFault {
    ghost from_gives = { λ it fault. fault ≡ of_row it };

    fn from(fault: RowFault) -> PeerFault {
        match fault {
            RowFault::Memory => PeerFault::Memory,
            RowFault::Cut
            | RowFault::TooLong
            | RowFault::Contents(_)
            | RowFault::Unordered
            | RowFault::Unlawful
            | RowFault::Trailing
            | RowFault::Ended => PeerFault::Row(fault),
        }
    }
}
