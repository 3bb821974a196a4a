//! A message in transit.
//!
//! # Why
//! A frame is in memory as a whole, at both ends, and a state may be far longer. So the state comes
//! after the frame, row by row.

use zprotocol::{Message, Process};

/// A message in transit. The state of a `Snapshot` isn't part of it: it follows the frame.
#[derive(Drop)]
pub struct Frame {
    /// Who sent it.
    pub sender: Process,
    /// Who is to receive it.
    pub receiver: Process,
    /// What is sent.
    pub message: Message<()>,
}
