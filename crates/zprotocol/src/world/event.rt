//! The events of the world.
//!
//! # Why
//!
//! Any event ends by dropping what failed servers held: their views, and the messages on channels
//! into them. A program drops both, so it is in the very world of the definition. That no history
//! changes by it is a law (`failed_servers_do_not_matter`).
//!
//! A delivery asks only that its receiver hasn't failed, since a history is defined for any number
//! of servers.

use crate::{Order, Process, ServerId};
use zcalls::{Call, ClientId};

/// One event: a call is invoked, a message is delivered, a server fails, joins or retires. Each is
/// one atomic step: at most one process changes its state, receives at most one message, and sends
/// messages. An event that is not enabled changes nothing.
#[derive(Drop)]
pub enum Event {
    /// A client invokes a call. Enabled where the world has that client, it has no outstanding
    /// call, and call numbers are left.
    Begin(ClientId, Call),
    /// A client sends its outstanding call once more. Enabled where it has one.
    Retry(ClientId),
    /// The front message of the channel from the first process to the second is delivered. Enabled
    /// where there is one and the second process has not failed.
    Take(Process, Process),
    /// The front message of that channel, a request of a client, is lost. Enabled where a delivery
    /// is, and the front is a `Submit` or a `Query`.
    Ignore(Process, Process),
    /// A server fails for good; its failure notice `Gone` is its last message. Enabled where it has
    /// not failed.
    Fail(ServerId),
    /// A server is asked to join after the tail, or a member of the chain is ordered to leave.
    /// Enabled where the master accepts the order.
    Order(Order),
}

impl Event {
    ghost use Rattle.std.specs.Prelude.{◌≡◌};
    ghost use Rattle.zprotocol.specs.world.Orders.{Join, Retire};

    /// Returns the event that a server is asked to join.
    pub fn join(server: ServerId) -> Event
        ensures { result ≡ Join server }
    {
        Event::Order(Order::Join(server))
    }

    /// Returns the event that a member is ordered to leave.
    pub fn retire(server: ServerId) -> Event
        ensures { result ≡ Retire server }
    {
        Event::Order(Order::Retire(server))
    }
}
