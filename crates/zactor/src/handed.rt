//! What is returned beside a result.
//!
//! # Why
//!
//! The caller lends a slot for what is large, so that results are small. Else each result of `act`,
//! and each step of a delivery, would have room for a reply or a message.

use std::mem::replace;
use zcalls::Reply;
use zprotocol::Message;
use zserver::Snapshot;

/// What a process returns in a slot that its caller lends. So results are small, and what is large
/// is moved only where there is something.
#[derive(Drop)]
pub enum Handed {
    /// Nothing.
    Nothing,
    /// The reply to a client's outstanding call.
    Reply(Reply),
    /// A message for which memory ran out before it was handled: it can be handled later.
    Message(Message<Snapshot>),
}

impl Handed {
    ghost use Rattle.std.specs.Prelude.{◌≡◌};
    ghost use Rattle.zactor.specs.declared.handed.Handed.TheVariants.{Nothing};
    ghost use Rattle.zactor.specs.Acting.{message_handed, reply_handed};

    /// Removes the reply and returns it. Anything else is dropped.
    pub fn take_reply(&mut self) -> Option<Reply>
        ensures reply { result ≡ reply_handed self.old }
        ensures left { self.new ≡ Nothing }
    {
        match replace(self, Handed::Nothing) {
            Handed::Reply(reply) => Some(reply),
            Handed::Message(message) => {
                drop(message);
                None
            }
            Handed::Nothing => None,
        }
    }

    /// Removes the message and returns it. Anything else is dropped.
    pub fn take_message(&mut self) -> Option<Message<Snapshot>>
        ensures message { result ≡ message_handed self.old }
        ensures left { self.new ≡ Nothing }
    {
        match replace(self, Handed::Nothing) {
            Handed::Message(message) => Some(message),
            Handed::Reply(reply) => {
                drop(reply);
                None
            }
            Handed::Nothing => None,
        }
    }
}
