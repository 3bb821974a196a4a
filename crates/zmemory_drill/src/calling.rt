//! A client that has no memory to send its call: it sends nothing, and is unchanged.

use crate::taking::has_put;
use crate::values::{create, path};
use std::alloc::Global;
use zalloc::Memory;
use zcalls::{Call, Query, Update};
use zclient::{BeginFault, ClientCore};
use zprotocol::{Message, Out, Process};
use ztesting::{Ended, epoch, server};

// What a client sends: no Snapshot is among it.
type Outbox = Out<()>;

/// Invokes an update.
pub(crate) fn update_begins(alloc: Global) -> Ended {
    match create(alloc, "/a") {
        Ok(update) => begins(alloc, Call::Update(update)),
        Err(Memory) => Ended::NotBegun,
    }
}

/// Invokes a query.
pub(crate) fn query_begins(alloc: Global) -> Ended {
    match path(alloc, "/a") {
        Ok(path) => begins(alloc, Call::Query(Query::GetData(path))),
        Err(Memory) => Ended::NotBegun,
    }
}

fn begins(alloc: Global, call: Call) -> Ended {
    let mut core = ClientCore::new(alloc, server(1));
    let mut out: Outbox = Out::new(alloc);
    let ended = begins_at(&mut core, call, &mut out);
    drop(core);
    drop(out);
    ended
}

// A refused call doesn't count: the next one has the first number.
fn begins_at(core: &mut ClientCore, call: Call, out: &mut Outbox) -> Ended {
    match core.begin(call, out) {
        Ok(number) => Ended::done(number.number() == 1 && has_put_to(1, out)),
        Err(BeginFault::Memory) => Ended::refused(is_idle(core, out) && begins_a_tick(core, out)),
        Err(_) => Ended::Wrong,
    }
}

// Returns whether nothing was sent, and no call is outstanding.
fn is_idle(core: &ClientCore, out: &mut Outbox) -> bool {
    !has_put(out) && core.outstanding().is_none()
}

// Returns whether a call is invoked as the first.
fn begins_a_tick(core: &mut ClientCore, out: &mut Outbox) -> bool {
    match core.begin(Call::Update(Update::Tick), out) {
        Ok(number) => number.number() == 1,
        Err(_) => false,
    }
}

/// Receives another head and tail, while a call is outstanding.
pub(crate) fn config_is_taken(alloc: Global) -> Ended {
    waiting(alloc, Act::Hears)
}

/// Sends the outstanding call once more.
pub(crate) fn call_is_retried(alloc: Global) -> Ended {
    waiting(alloc, Act::Sends)
}

// What a client does while its first call is outstanding.
#[derive(Clone, Copy)]
enum Act {
    Hears,
    Sends,
}

// Lets a client of a chain of one server do this while its first call is outstanding.
fn waiting(alloc: Global, act: Act) -> Ended {
    let mut core = ClientCore::new(alloc, server(1));
    let ended = if begins_first(alloc, &mut core) {
        acts(alloc, &mut core, act)
    } else {
        Ended::NotBegun
    };
    drop(core);
    ended
}

fn acts(alloc: Global, core: &mut ClientCore, act: Act) -> Ended {
    let mut out: Outbox = Out::new(alloc);
    let ended = match act {
        Act::Hears => hears(core, &mut out),
        Act::Sends => sends(core, &mut out),
    };
    drop(out);
    ended
}

fn begins_first(alloc: Global, core: &mut ClientCore) -> bool {
    let Ok(update) = create(alloc, "/a") else {
        return false;
    };
    let mut before: Outbox = Out::new(alloc);
    let has_begun = core.begin(Call::Update(update), &mut before).is_ok();
    drop(before);
    has_begun
}

// From now on server 2 is the whole chain.
fn config() -> Message<()> {
    Message::Config(epoch(1), Some(server(2)), Some(server(2)))
}

// Where it is refused, nothing has changed.
fn hears(core: &mut ClientCore, out: &mut Outbox) -> Ended {
    match is_heard(core, out) {
        Ok(is_as_said) => Ended::done(is_as_said && has_put_to(2, out)),
        Err(is_as_said) => {
            Ended::refused(is_as_said && waits(core, out) && hears_again(core, out))
        }
    }
}

// Returns in `Ok` whether there is no reply, and in `Err` whether the message that is returned is
// the one that was given.
fn is_heard(core: &mut ClientCore, out: &mut Outbox) -> Result<bool, bool> {
    let taken = core.take(Process::Master, config(), out);
    let is_heard = match &taken {
        Ok(reply) => Ok(reply.is_none()),
        Err(back) => Err(is_config(back)),
    };
    drop(taken);
    is_heard
}

fn is_config(message: &Message<()>) -> bool {
    match message {
        Message::Config(epoch, Some(head), Some(tail)) => {
            epoch.number() == 1 && head.number() == 2 && tail.number() == 2
        }
        _ => false,
    }
}

fn hears_again(core: &mut ClientCore, out: &mut Outbox) -> bool {
    is_heard(core, out).is_ok() && has_put_to(2, out)
}

fn sends(core: &ClientCore, out: &mut Outbox) -> Ended {
    match core.retry(out) {
        Ok(has_sent) => Ended::done(has_sent && has_put_to(1, out)),
        Err(Memory) => Ended::refused(waits(core, out) && sends_again(core, out)),
    }
}

fn sends_again(core: &ClientCore, out: &mut Outbox) -> bool {
    core.retry(out).is_ok() && has_put_to(1, out)
}

// Returns whether nothing was sent, and the first call is still outstanding.
fn waits(core: &ClientCore, out: &mut Outbox) -> bool {
    !has_put(out) && matches!(core.outstanding(), Some(number) if number.number() == 1)
}

// Returns whether the first message that was sent goes to this server.
fn has_put_to(number: u8, out: &mut Outbox) -> bool {
    let post = out.next();
    let is_there = match &post {
        Some((receiver, _)) => is_server(receiver, number),
        None => false,
    };
    drop(post);
    is_there
}

fn is_server(receiver: &Process, number: u8) -> bool {
    match receiver {
        Process::Server(server) => server.number() == number,
        _ => false,
    }
}
