//! What a process is given.

use zcalls::Call;
use zprotocol::{Message, Order, Process};
use zserver::Snapshot;

/// What a process is given: a message that it receives, or something from outside.
#[derive(Drop)]
pub enum Input {
    /// It receives a message, with its sender.
    Hear(Process, Message<Snapshot>),
    /// A client is to invoke a call.
    Begin(Call),
    /// A client is to send its outstanding call once more.
    Retry,
    /// The master is to obey an order.
    Obey(Order),
    /// A server is to stop for good.
    Stop,
}

impl Input {
    ghost use Rattle.zactor.specs.support.Inputs.{IsInRange};

    /// The server of an order has a number from 1 to `MAX_SERVERS`. The function does nothing.
    pub(crate) fn keeps_in_range(&self)
        ensures { IsInRange self.now }
    {
        match self {
            Input::Obey(order) => order.keeps_in_range(),
            Input::Hear(_, _) | Input::Begin(_) | Input::Retry | Input::Stop => (),
        }
    }
}
