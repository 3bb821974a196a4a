//! A server receives a message: it acts, or it has stopped for good and sent nothing.

use std::alloc::Global;
use zprotocol::{Message, Out, Process};
use zserver::{Server, Snapshot, Stopped, Taken};
use ztesting::{Ended, epoch};

/// Hands a server a message, with nothing sent before; returns whether it acted.
pub(crate) fn acts(
    server: &mut Server,
    from: Process,
    message: Message<Snapshot>,
    out: &mut Out<Snapshot>,
) -> bool {
    matches!(server.take(from, message, out), Ok(Taken::Acted))
}

/// Hands a server the message of a story; it sends something where it acts.
pub(crate) fn takes(
    alloc: Global,
    server: &mut Server,
    from: Process,
    message: Message<Snapshot>,
) -> Ended {
    let mut out = Out::new(alloc);
    let ended = takes_at(server, from, message, &mut out);
    drop(out);
    ended
}

fn takes_at(
    server: &mut Server,
    from: Process,
    message: Message<Snapshot>,
    out: &mut Out<Snapshot>,
) -> Ended {
    match server.take(from, message, out) {
        Ok(Taken::Acted) => Ended::done(has_put(out)),
        Ok(Taken::Unheard) => Ended::Wrong,
        Err(Stopped::Memory) => Ended::refused(has_stopped(server, out)),
        Err(Stopped::Retired) => Ended::Wrong,
    }
}

/// Returns whether something was sent, and removes it.
pub(crate) fn has_put<T: Drop>(out: &mut Out<T>) -> bool {
    let post = out.next();
    let is_some = post.is_some();
    drop(post);
    is_some
}

// Returns whether nothing was sent, and the server handles nothing more, not even what needs no
// memory.
fn has_stopped(server: &mut Server, out: &mut Out<Snapshot>) -> bool {
    !has_put(out) && !becomes_head(server, out) && !has_put(out)
}

fn becomes_head(server: &mut Server, out: &mut Out<Snapshot>) -> bool {
    acts(server, Process::Master, Message::BecomeHead(epoch(1)), out)
}
