//! A join: a server without state receives a snapshot, and answers from then on.

use crate::play::{Rows, first, gives, plays};
use crate::shown::puts;
use crate::values::Given;
use std::alloc::Global;
use std::process::Abort;
use zcalls::Update;
use zprotocol::{Epoch, Message, Out, Process};
use zserver::{Server, Snapshot};
use ztesting::{call_number, client, server};

// A spare server joins after server 1 in epoch 1.
const JOINS: Rows = &[
    (Given::NewPred(1, 1), &[("master", 0, "have", 1, None)]),
    (
        Given::Snapshot(1, 1),
        &[
            ("server", 1, "ack", 1, Some(1)),
            ("master", 0, "joined", 1, None),
        ],
    ),
    (Given::Query(2), &[("client", 1, "answer", 2, None)]),
];

// A server that is the whole chain answers an update, and hands its state over to server 2.
const HANDS_OVER: Rows = &[
    (Given::Submit(1), &[("client", 1, "answer", 1, None)]),
    (
        Given::NewSucc(1, 2, None),
        &[("server", 2, "snapshot", 1, None)],
    ),
    (Given::Query(2), &[]),
];

#[test]
fn answers_after_its_snapshot(rt: HostRuntime) {
    let mut spare = Server::spare(rt.alloc());
    plays(&rt, rt.alloc(), &mut spare, JOINS);
    drop(spare);
}

#[test]
fn is_silent_after_it_handed_over(rt: HostRuntime) {
    let mut only = first(&rt, rt.alloc(), None, None);
    plays(&rt, rt.alloc(), &mut only, HANDS_OVER);
    drop(only);
}

/// Returns what server 1, alone and with one entry, hands over to server 2 in this epoch.
pub(crate) fn handed_over(rt: &impl Abort, alloc: Global, epoch: Epoch) -> Message<Snapshot> {
    let mut only = first(rt, alloc, None, None);
    let mut out = Out::new(alloc);
    let submit = Message::Submit(call_number(1), Update::Tick);
    gives(rt, &mut only, Process::Client(client(1)), submit, &mut out);
    puts(rt, &mut out, &[("client", 1, "answer", 1, None)]);
    let joined_by = Message::NewSucc(epoch, server(2), None);
    gives(rt, &mut only, Process::Master, joined_by, &mut out);
    drop(only);
    let post = out.next();
    drop(out);
    let (_, message) = post.expect(rt, "it hands its state over");
    message
}
