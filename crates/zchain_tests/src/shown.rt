//! What was sent, in words and numbers.

use std::process::Abort;
use zprotocol::{LogNumber, Message, Out, Process};
use zserver::Snapshot;

/// A message that was sent: the kind of its receiver and its number, 0 for the master. Then the
/// kind of the message, its epoch or the number of its call, and its log number.
pub(crate) type Shown = (&'static str, u8, &'static str, u64, Option<u64>);

// Represents no message.
const NOTHING: Shown = ("nobody", 0, "nothing", 0, None);

/// Asserts that these messages were sent, in this order, and no others.
pub(crate) fn puts(rt: &impl Abort, out: &mut Out<Snapshot>, wanted: &[Shown]) {
    for want in wanted {
        assert!(rt; next(out) == *want);
    }
    assert!(rt; next(out) == NOTHING);
}

// Removes the first message that was sent, and returns it.
fn next(out: &mut Out<Snapshot>) -> Shown {
    let post = out.next();
    let shown = match &post {
        Some((to, message)) => show(to, message),
        None => NOTHING,
    };
    drop(post);
    shown
}

fn show(to: &Process, message: &Message<Snapshot>) -> Shown {
    let (what, number) = receiver(to);
    let (word, first, last) = reported(message);
    (what, number, word, first, last)
}

fn receiver(to: &Process) -> (&'static str, u8) {
    match to {
        Process::Server(server) => ("server", server.number()),
        Process::Client(client) => ("client", client.number()),
        Process::Master => ("master", 0),
    }
}

fn reported(message: &Message<Snapshot>) -> (&'static str, u64, Option<u64>) {
    match message {
        Message::Answer(number, _) => ("answer", number.number(), None),
        Message::Update(epoch, n, _) => ("update", epoch.number(), Some(n.number())),
        Message::Ack(epoch, n) => ("ack", epoch.number(), Some(n.number())),
        Message::Snapshot(epoch, _) => ("snapshot", epoch.number(), None),
        Message::Have(epoch, last) => ("have", epoch.number(), number_of(last)),
        Message::Joined(epoch) => ("joined", epoch.number(), None),
        _ => ("other", 0, None),
    }
}

fn number_of(last: &Option<LogNumber>) -> Option<u64> {
    match last {
        Some(last) => Some(last.number()),
        None => None,
    }
}
