//! A join: the whole state is handed over, and received.

use crate::story::{Word, hears, hears_at};
use crate::taking::{acts, takes};
use std::alloc::Global;
use zprotocol::{Message, Out, Process};
use zserver::{Server, Snapshot};
use ztesting::{Ended, epoch, server};

/// A spare server whose predecessor is server 1 receives what that one hands over.
pub(crate) fn snapshot_is_taken(alloc: Global) -> Ended {
    let Some(snapshot) = handed_over(alloc) else {
        return Ended::NotBegun;
    };
    let mut spare = Server::spare(alloc);
    let ended = joins(alloc, &mut spare, snapshot);
    drop(spare);
    ended
}

fn joins(alloc: Global, spare: &mut Server, snapshot: Message<Snapshot>) -> Ended {
    if turns(alloc, spare) {
        takes(alloc, spare, Process::Server(server(1)), snapshot)
    } else {
        drop(snapshot);
        Ended::NotBegun
    }
}

// Returns whether server 1 is its predecessor from now on. What it sends is dropped.
fn turns(alloc: Global, spare: &mut Server) -> bool {
    let mut out = Out::new(alloc);
    let message = Message::NewPred(epoch(1), server(1));
    let has_turned = acts(spare, Process::Master, message, &mut out);
    drop(out);
    has_turned
}

// Returns what server 1 hands over.
fn handed_over(alloc: Global) -> Option<Message<Snapshot>> {
    let Ok(mut only) = Server::first(alloc, None, None) else {
        return None;
    };
    let mut out = Out::new(alloc);
    // Where it hears neither, it has sent nothing.
    let _ = hears(alloc, &mut only, Word::Submit)
        && hears_at(alloc, &mut only, Word::JoinedBy, &mut out);
    drop(only);
    let post = out.next();
    drop(out);
    match post {
        Some((_, message)) => Some(message),
        None => None,
    }
}
