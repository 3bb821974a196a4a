//! Why a process refuses an input.

use zprotocol::{BeginFault, OrderFault};

/// Why a process refuses an input. Out of memory isn't among these.
#[derive(Clone, Copy, Debug, PartialEq, Eq)]
pub enum Refusal {
    /// The client can't invoke a call: it is `Busy` or `Exhausted`.
    Begin(BeginFault),
    /// The master refuses the order.
    Order(OrderFault),
    /// A process of this kind never accepts such an input, one that has stopped accepts none, or a
    /// client has no call to send once more.
    NotAccepted,
}
