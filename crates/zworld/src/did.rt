//! What became of an event.

use zclient::BeginFault;
use zmaster::OrderFault;

/// Why an event didn't happen.
#[derive(Clone, Copy, Debug, PartialEq, Eq)]
pub enum IdleCause {
    /// There is no such client, server or message, or the receiver has failed.
    Nothing,
    /// The client refused the call.
    Begin(BeginFault),
    /// The master refused the order.
    Order(OrderFault),
}

/// What became of an event.
#[derive(Clone, Copy, Debug, PartialEq, Eq)]
pub enum Did {
    /// It happened.
    Done,
    /// It wasn't enabled, and nothing changed.
    Idle(IdleCause),
    /// A server had no memory for a query: the query is lost.
    Unheard,
    /// A server stopped, and counts as failed: it ran out of memory at a message.
    Stopped,
}

impl Did {
    ghost use Rattle.std.specs.Prelude.{◌≡◌};
    ghost use Rattle.zworld.specs.Did.{is_short};

    /// Returns whether a server ran out of memory at the event: it dropped a query, or stopped.
    pub fn is_short(self) -> bool
        ensures { result ≡ is_short self }
    {
        match self {
            Did::Unheard | Did::Stopped => true,
            Did::Done | Did::Idle(_) => false,
        }
    }
}
