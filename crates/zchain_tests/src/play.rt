//! What the tests share: a server is given messages, and what it sends is compared.

use crate::shown::{Shown, puts};
use crate::values::{Given, message, sender};
use std::alloc::Global;
use std::process::Abort;
use zprotocol::{Message, Out, Process, ServerId};
use zserver::{Server, Snapshot, Taken};

/// What a server is given, each message with what the server sends then.
pub(crate) type Rows = &'static [(Given, &'static [Shown])];

/// Returns a server with these neighbours in the initial chain.
pub(crate) fn first(
    rt: &impl Abort,
    alloc: Global,
    pred: Option<ServerId>,
    succ: Option<ServerId>,
) -> Server {
    Server::first(alloc, pred, succ).expect(rt, "there is memory")
}

/// Plays rows at a server.
pub(crate) fn plays(rt: &impl Abort, alloc: Global, server: &mut Server, rows: Rows) {
    let mut out = Out::new(alloc);
    for (given, wanted) in rows {
        gives(
            rt,
            server,
            sender(rt, given),
            message(rt, alloc, given),
            &mut out,
        );
        puts(rt, &mut out, wanted);
    }
    drop(out);
}

/// Hands a server a message, on which it acts.
pub(crate) fn gives(
    rt: &impl Abort,
    server: &mut Server,
    from: Process,
    message: Message<Snapshot>,
    out: &mut Out<Snapshot>,
) {
    assert!(rt; matches!(server.take(from, message, out), Ok(Taken::Acted)));
}
