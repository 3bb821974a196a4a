//! Why nothing was done.

use crate::refusal::Refusal;

/// Why nothing was done with an input. Then nothing has changed, and nothing was sent.
#[derive(Drop)]
pub enum ActFault {
    /// The process refuses the input.
    Refused(Refusal),
    /// Out of memory. A message that was to be handled is returned in the caller's slot.
    Memory,
}
