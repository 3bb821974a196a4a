//! Stories of a server of the initial chain: what it receives, and what it received before.

use crate::machines::first_entry;
use crate::taking::{acts, takes};
use crate::values::create;
use std::alloc::Global;
use zalloc::Memory;
use zcalls::{SharedEntry, Update};
use zprotocol::{Message, Out, Process, ServerId};
use zserver::{Server, Snapshot};
use ztesting::{Ended, call_number, client, epoch, log_number, server};

/// A server receives a message: its predecessor and its successor in the initial chain (0 for
/// none), what it received before, and the message.
pub(crate) type Taking = (u8, u8, Option<Word>, Word);

/// A message.
#[derive(Clone, Copy)]
pub(crate) enum Word {
    /// Client 1's first call, which makes `/a`.
    Submit,
    /// The log's first entry, which makes `/a`.
    Update,
    /// The log's first entry, a tick.
    Tick,
    /// The tail has processed the log's first entry.
    Ack,
    /// Server 2 is the predecessor now.
    NewPred,
    /// Server 4, which has no entry, is the successor now.
    NewSucc,
    /// There is no successor any more.
    BecomeTail,
    /// Server 2 joins after it.
    JoinedBy,
}

/// Returns how a story ends.
pub(crate) fn reported(alloc: Global, story: &Taking) -> Ended {
    let (pred, succ, before, word) = *story;
    let first = Server::first(alloc, ServerId::new(pred), ServerId::new(succ));
    let Ok(mut server) = first else {
        return Ended::NotBegun;
    };
    let ended = reported_at(alloc, &mut server, before, word);
    drop(server);
    ended
}

fn reported_at(alloc: Global, server: &mut Server, before: Option<Word>, word: Word) -> Ended {
    if let Some(before) = before
        && !hears(alloc, server, before)
    {
        return Ended::NotBegun;
    }
    match message(alloc, word) {
        Ok(message) => takes(alloc, server, sender(word), message),
        Err(Memory) => Ended::NotBegun,
    }
}

/// Hands a server a message before that of the story; returns whether it acted. What it sends is
/// dropped.
pub(crate) fn hears(alloc: Global, server: &mut Server, word: Word) -> bool {
    let mut out = Out::new(alloc);
    let has_acted = hears_at(alloc, server, word, &mut out);
    drop(out);
    has_acted
}

/// Hands a server a message; returns whether it acted.
pub(crate) fn hears_at(
    alloc: Global,
    server: &mut Server,
    word: Word,
    out: &mut Out<Snapshot>,
) -> bool {
    match message(alloc, word) {
        Ok(message) => acts(server, sender(word), message, out),
        Err(Memory) => false,
    }
}

fn sender(word: Word) -> Process {
    match word {
        Word::Submit => Process::Client(client(1)),
        Word::Update | Word::Tick => Process::Server(server(1)),
        Word::Ack => Process::Server(server(3)),
        Word::NewPred | Word::NewSucc | Word::BecomeTail | Word::JoinedBy => Process::Master,
    }
}

fn message(alloc: Global, word: Word) -> Result<Message<Snapshot>, Memory> {
    match word {
        Word::Submit => submit(alloc),
        Word::Update => update(alloc),
        Word::Tick => first_update(alloc, Update::Tick),
        Word::Ack => Ok(Message::Ack(epoch(0), log_number(1))),
        Word::NewPred => Ok(Message::NewPred(epoch(1), server(2))),
        Word::NewSucc => Ok(Message::NewSucc(epoch(1), server(4), Some(log_number(0)))),
        Word::BecomeTail => Ok(Message::BecomeTail(epoch(1))),
        Word::JoinedBy => Ok(Message::NewSucc(epoch(1), server(2), None)),
    }
}

fn submit(alloc: Global) -> Result<Message<Snapshot>, Memory> {
    match create(alloc, "/a") {
        Ok(update) => Ok(Message::Submit(call_number(1), update)),
        Err(memory) => Err(memory),
    }
}

fn update(alloc: Global) -> Result<Message<Snapshot>, Memory> {
    match create(alloc, "/a") {
        Ok(update) => first_update(alloc, update),
        Err(memory) => Err(memory),
    }
}

// Returns the update as the first entry of the log.
fn first_update(alloc: Global, update: Update) -> Result<Message<Snapshot>, Memory> {
    let entry = SharedEntry::new(alloc, first_entry(update))?;
    Ok(Message::Update(epoch(0), log_number(1), entry))
}
