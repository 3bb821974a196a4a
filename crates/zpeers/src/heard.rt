//! What a frame is: a message that is whole, or the beginning of a snapshot.

ghost use Rattle.zpeers.specs.support.Arriving.{IsHeard};

use zprotocol::{Epoch, Message};
use zserver::Snapshot;

/// What a frame is.
#[derive(Drop)]
pub(crate) enum Heard {
    /// The message, which has no state.
    Whole(Message<Snapshot>),
    /// The beginning of a snapshot of this epoch.
    Begun(Epoch),
}

/// Returns what the message of a frame is.
pub(crate) fn message_in(message: Message<()>) -> Heard
    ensures { IsHeard message result }
{
    let message = match message {
        Message::Submit(number, update) => Message::Submit(number, update),
        Message::Query(number, query) => Message::Query(number, query),
        Message::Answer(number, reply) => Message::Answer(number, reply),
        Message::Update(epoch, number, entry) => Message::Update(epoch, number, entry),
        Message::Ack(epoch, number) => Message::Ack(epoch, number),
        Message::Snapshot(epoch, _) => return Heard::Begun(epoch),
        Message::NewPred(epoch, server) => Message::NewPred(epoch, server),
        Message::Have(epoch, last) => Message::Have(epoch, last),
        Message::NewSucc(epoch, server, last) => Message::NewSucc(epoch, server, last),
        Message::BecomeHead(epoch) => Message::BecomeHead(epoch),
        Message::BecomeTail(epoch) => Message::BecomeTail(epoch),
        Message::Retire => Message::Retire,
        Message::Joined(epoch) => Message::Joined(epoch),
        Message::Gone => Message::Gone,
        Message::Config(epoch, head, tail) => Message::Config(epoch, head, tail),
    };
    Heard::Whole(message)
}
