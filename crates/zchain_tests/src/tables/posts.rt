//! What was sent, as these tests look at it.

use std::process::Abort;
use zprotocol::{Message, Out, Process, ServerId};

/// What a process sends, where no Snapshot is among it.
pub(crate) type Outbox = Out<()>;

/// Returns the server to which the first message goes.
pub(crate) fn next_server(out: &mut Outbox) -> Option<u8> {
    let post = out.next();
    let reported = match &post {
        Some(post) => server_of(&post.0),
        None => None,
    };
    drop(post);
    reported
}

/// Returns the epoch and the tail in the first message.
pub(crate) fn next_config(out: &mut Outbox) -> Option<(u64, u8)> {
    let post = out.next();
    let reported = match &post {
        Some(post) => config_of(&post.1),
        None => None,
    };
    drop(post);
    reported
}

fn server_of(receiver: &Process) -> Option<u8> {
    match receiver {
        Process::Server(server) => Some(server.number()),
        _ => None,
    }
}

fn config_of(message: &Message<()>) -> Option<(u64, u8)> {
    match message {
        Message::Config(epoch, _, Some(tail)) => Some((epoch.number(), tail.number())),
        _ => None,
    }
}

/// Returns the server of this number.
pub(crate) fn server(rt: &impl Abort, number: u8) -> ServerId {
    ServerId::new(number).expect(rt, "there is such a server")
}
