//! The outcomes of the console's orders.

use zprotocol::{Order, OrderFault};

/// The outcome of an order.
#[derive(Clone, Copy, Debug, PartialEq, Eq)]
pub enum OrderOutcome {
    /// The master obeyed. A server that joins is a member from now on, and the tail once it has the
    /// state. A member that is to leave remains one until the master hears that it is gone.
    Obeyed(Order),
    /// The master refused. Nothing has changed.
    Refused(Order, OrderFault),
}
