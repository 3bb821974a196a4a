//! The results of a ticker's calls.

use crate::faults::Unanswered;

/// The results of a ticker's calls.
#[derive(Clone, Copy, Debug, PartialEq, Eq)]
pub struct Ticks {
    /// How many ticks have their reply.
    pub answered: u64,
    /// Why the last tick without a reply has none. `None` where each has its reply.
    pub last_fault: Option<Unanswered>,
}
