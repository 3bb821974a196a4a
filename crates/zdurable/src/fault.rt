//! Why a service isn't opened, and why it has ended.
//!
//! # Why
//! Any fault ends the service, also out of memory in the front end: nothing is promised of its
//! tables then, and a file is soon opened again.

use thiserror::Error;
use zalloc::Memory;
use zjournal::{OpenError, PutError};
use zsnapshots::folder::ReadFault;
use ztree_service::LimitFault;

/// Why a service isn't opened.
#[derive(Clone, Copy, Debug, PartialEq, Eq, Error)]
pub enum OpenFault {
    /// The file or its disk, as the journal reports.
    #[error("{0}")]
    Journal(OpenError),
    /// There is no memory for the content of the file. The file is unchanged.
    #[error("out of memory")]
    Memory,
    /// The journal doesn't hold changes, or a snapshot and changes after it. The file is unchanged.
    #[error("not a journal of changes")]
    NotRecords,
    /// The tree doesn't fit within the chosen limits. The file is unchanged.
    #[error("{0}")]
    Limits(LimitFault),
    /// The tree has other limits than those chosen, and the file with these isn't made. The file is
    /// the old one or that one.
    #[error("{0}")]
    Renewal(DurableFault),
}

/// Why an input isn't taken, or changes aren't made durable. The service has ended.
#[derive(Clone, Copy, Debug, PartialEq, Eq, Error)]
pub enum DurableFault {
    /// Out of memory.
    #[error("out of memory")]
    Memory,
    /// The disk failed. The next opening shows whether the changes are durable.
    #[error("the disk failed")]
    Failed,
    /// The journal is full.
    #[error("the journal is full")]
    Full,
    /// An earlier call failed: the service does nothing more, and makes no device calls.
    #[error("the service has ended")]
    Ended,
}

impl From<Memory> for OpenFault {
    ghost use Rattle.zdurable.specs.declared.fault.OpenFault.TheVariants as fault;
    ghost use Rattle.std.specs.Prelude.{◌≡◌};

    ghost from_gives = { λ _ e. e ≡ fault.Memory };

    fn from(_: Memory) -> Self {
        OpenFault::Memory
    }
}

impl From<ReadFault> for OpenFault {
    ghost use Rattle.zdurable.specs.Faults.{read_fault};
    ghost use Rattle.std.specs.Prelude.{◌≡◌};

    ghost from_gives = { λ cause e. e ≡ read_fault cause };

    fn from(cause: ReadFault) -> Self {
        match cause {
            ReadFault::Memory => OpenFault::Memory,
            ReadFault::NotRecords => OpenFault::NotRecords,
        }
    }
}

impl From<LimitFault> for OpenFault {
    ghost use Rattle.zdurable.specs.Faults.{limit_fault};
    ghost use Rattle.std.specs.Prelude.{◌≡◌};

    ghost from_gives = { λ cause e. e ≡ limit_fault cause };

    fn from(cause: LimitFault) -> Self {
        match cause {
            LimitFault::Memory => OpenFault::Memory,
            cause => OpenFault::Limits(cause),
        }
    }
}

impl From<PutError> for DurableFault {
    ghost use Rattle.zdurable.specs.Faults.{put_fault};
    ghost use Rattle.std.specs.Prelude.{◌≡◌};

    ghost from_gives = { λ cause e. e ≡ put_fault cause };

    fn from(cause: PutError) -> Self {
        match cause {
            PutError::Memory => DurableFault::Memory,
            PutError::Failed => DurableFault::Failed,
            PutError::Full => DurableFault::Full,
            PutError::NotText | PutError::Closed => DurableFault::Ended,
        }
    }
}

impl From<Memory> for DurableFault {
    ghost use Rattle.zdurable.specs.declared.fault.DurableFault.TheVariants as fault;
    ghost use Rattle.std.specs.Prelude.{◌≡◌};

    ghost from_gives = { λ _ e. e ≡ fault.Memory };

    fn from(_: Memory) -> Self {
        DurableFault::Memory
    }
}
