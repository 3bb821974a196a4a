//! Messages by their numbers.

use crate::joining::handed_over;
use std::alloc::Global;
use std::process::Abort;
use zcalls::{CallNumber, Entry, Query, SharedEntry, Update};
use zpath::Path;
use zprotocol::{Epoch, LogNumber, Message, Process, ServerId};
use zserver::Snapshot;
use ztesting::client;

/// A message that a server is given.
pub(crate) enum Given {
    /// From the master: its epoch, and the new predecessor.
    NewPred(u64, u8),
    /// From the master: its epoch, the new successor, and the last number of that one's log.
    NewSucc(u64, u8, Option<u64>),
    /// From this server: its epoch, and its log number. The entry is a tick that client 0 asks for.
    Update(u8, u64, u64),
    /// From this server: its epoch, and its log number.
    Ack(u8, u64, u64),
    /// From this server: its epoch. Server 1, alone and with one entry, hands this over.
    Snapshot(u8, u64),
    /// From this server: its epoch.
    Joined(u8, u64),
    /// From client 1, with this number: a tick.
    Submit(u64),
    /// From client 1, with this number: whether the root exists.
    Query(u64),
}

/// Returns who sends a message.
pub(crate) fn sender(rt: &impl Abort, given: &Given) -> Process {
    match given {
        Given::NewPred(..) | Given::NewSucc(..) => Process::Master,
        Given::Submit(_) | Given::Query(_) => Process::Client(client(1)),
        Given::Update(from, ..)
        | Given::Ack(from, ..)
        | Given::Snapshot(from, _)
        | Given::Joined(from, _) => Process::Server(server(rt, *from)),
    }
}

/// Returns what is sent.
pub(crate) fn message(rt: &impl Abort, alloc: Global, given: &Given) -> Message<Snapshot> {
    match given {
        Given::NewPred(at, pred) => Message::NewPred(epoch(rt, *at), server(rt, *pred)),
        Given::NewSucc(at, succ, last) => {
            Message::NewSucc(epoch(rt, *at), server(rt, *succ), last_number(rt, last))
        }
        Given::Update(_, at, n) => Message::Update(
            epoch(rt, *at),
            log_number(rt, *n),
            tick(rt, alloc, *n),
        ),
        Given::Ack(_, at, n) => Message::Ack(epoch(rt, *at), log_number(rt, *n)),
        Given::Snapshot(_, at) => handed_over(rt, alloc, epoch(rt, *at)),
        Given::Joined(_, at) => Message::Joined(epoch(rt, *at)),
        Given::Submit(n) => Message::Submit(call_number(rt, *n), Update::Tick),
        Given::Query(n) => { Message::Query(call_number(rt, *n), Query::Exists(Path::root())) }
    }
}

fn tick(rt: &impl Abort, alloc: Global, number: u64) -> SharedEntry {
    let entry = Entry {
        client: client(0),
        number: call_number(rt, number),
        update: Update::Tick,
    };
    SharedEntry::new(alloc, entry).expect(rt, "there is memory")
}

fn server(rt: &impl Abort, number: u8) -> ServerId {
    ServerId::new(number).expect(rt, "there is such a server")
}

fn epoch(rt: &impl Abort, number: u64) -> Epoch {
    Epoch::new(number).expect(rt, "there is such an epoch")
}

fn log_number(rt: &impl Abort, number: u64) -> LogNumber {
    LogNumber::new(number).expect(rt, "there is such a log number")
}

fn last_number(rt: &impl Abort, last: &Option<u64>) -> Option<LogNumber> {
    match last {
        Some(last) => Some(log_number(rt, *last)),
        None => None,
    }
}

fn call_number(rt: &impl Abort, number: u64) -> CallNumber {
    CallNumber::new(number).expect(rt, "there is such a call number")
}
