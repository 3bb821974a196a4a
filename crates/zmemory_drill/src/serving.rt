//! A query at a tail.

ghost use Rattle.std.specs.Prelude.{◌≤◌};
ghost use Rattle.zcalls.specs.declared.limits.TheConstants.{MAX_CALL_NUMBER};

use crate::taking::{acts, has_put};
use std::alloc::Global;
use zalloc::Memory;
use zcalls::Query;
use zpath::Path;
use zprotocol::{Message, Out, Process};
use zserver::{Server, Snapshot, Stopped, Taken};
use ztesting::{Ended, call_number, client};

/// A query at a tail.
pub(crate) fn query_is_taken(alloc: Global) -> Ended {
    match Server::first(alloc, None, None) {
        Ok(mut tail) => {
            let mut out = Out::new(alloc);
            let ended = answers(&mut tail, &mut out);
            drop(tail);
            drop(out);
            ended
        }
        Err(Memory) => Ended::NotBegun,
    }
}

// A query for which memory runs out is as if it had been lost: the next one is answered.
fn answers(tail: &mut Server, out: &mut Out<Snapshot>) -> Ended {
    match tail.take(Process::Client(client(1)), query(1), out) {
        Ok(Taken::Acted) => Ended::done(has_put(out)),
        Ok(Taken::Unheard) => Ended::refused(!has_put(out) && answers_the_next(tail, out)),
        Err(Stopped::Memory | Stopped::Retired) => Ended::Wrong,
    }
}

fn answers_the_next(tail: &mut Server, out: &mut Out<Snapshot>) -> bool {
    acts(tail, Process::Client(client(1)), query(2), out) && has_put(out)
}

// Client 1 asks for the names beneath the root.
fn query(number: u64) -> Message<Snapshot>
    requires { number ≤ MAX_CALL_NUMBER }
{
    Message::Query(call_number(number), Query::GetChildren(Path::root()))
}
