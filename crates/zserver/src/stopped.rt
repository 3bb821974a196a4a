//! Why a server has stopped.

use thiserror::Error;

/// Why a server handles no more messages and sends nothing. To the others it has crashed.
#[derive(Clone, Copy, Debug, PartialEq, Eq, Error)]
pub enum Stopped {
    /// It ran out of memory.
    #[error("stopped: out of memory")]
    Memory,
    /// The master ordered it to leave.
    #[error("stopped: retired")]
    Retired,
}
