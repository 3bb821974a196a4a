//! Whether a sync waits for the disk.
//!
//! # Why
//! With `Never` a sync is noted as skipped, and else as one that was done: so one law holds for
//! both modes. There a crash means the end of this process alone.

ghost use Rattle.std.specs.Prelude.{◌≡◌};
ghost use Rattle.zjournal.specs.file.Events.{skip_of};

/// Whether a sync asks the disk.
#[derive(Clone, Copy, Debug, PartialEq, Eq)]
pub enum SyncMode {
    /// Each sync waits until what was written is durable.
    Batch,
    /// A sync does nothing. What was written outlives this process. A crash, in the law, is then
    /// the end of this process alone: when the machine stops or loses power, anything may be lost.
    Never,
}

impl SyncMode {
    /// How a record notes a sync: 0 if the disk was asked, 1 if the sync was skipped.
    pub(crate) fn noted(self) -> u64
        ensures { result ≡ skip_of self }
    {
        match self {
            SyncMode::Batch => 0,
            SyncMode::Never => 1,
        }
    }
}
