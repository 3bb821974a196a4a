//! The entries that were forwarded, and that the tail may not have processed yet.
//!
//! # Why
//!
//! The head makes an entry once. The message to the successor, Sent and the machine share it
//! (`SharedEntry`, an `Arc`), so a chain of any length has one block for it, and a server alone
//! none.
//!
//! Sent is a vector in the order of the log, and an acknowledgement drops what isn't above its
//! number. So no law is needed that the numbers rise.

ghost use Rattle.std.specs.Prelude.{◌≡◌, ◌<◌, ◌≤◌, length, map, IfOk, OnErr, OnOk};
ghost use Rattle.zprotocol.specs.Posts.{Puts};
ghost use Rattle.zprotocol.specs.server.Table.{entries_above, forward_post};
ghost use Rattle.zserver.specs.support.Replicas.{posts_above};

use crate::neighbour::Neighbour;
use crate::snapshot::Snapshot;
use std::alloc::Global;
use std::collections::VecDeque;
use zalloc::Memory;
use zcalls::SharedEntry;
use zprotocol::{LogNumber, Message, Out, Process};

/// The entries, each with its number in the log.
pub(crate) type Sent = Vec<(LogNumber, SharedEntry)>;

/// Returns each entry above this number, with one more owner. It allocates only where there are
/// some.
fn copies_above(
    alloc: Global,
    sent: &[(LogNumber, SharedEntry)],
    n: LogNumber,
) -> Result<VecDeque<(LogNumber, SharedEntry)>, Memory>
    ensures copies { IfOk result (λ copies. copies.items ≡ entries_above n sent.now) }
    ensures some { OnErr result (0 < length (entries_above n sent.now)) }
{
    let mut copies = VecDeque::new(alloc);
    for e in sent {
        if e.0.number() <= n.number() {
            continue;
        }
        copies.push_back((e.0, e.1.clone()?))?;
    }
    Ok(copies)
}

/// Sends each entry to the successor, in order.
fn put_all(
    mut entries: VecDeque<(LogNumber, SharedEntry)>,
    succ: &Neighbour,
    out: &mut Out<Snapshot>,
)
    requires { length entries.items ≤ out.old.room }
    ensures { Puts out.old out.new (map (forward_post succ.now) entries.items) }
{
    while let Some((number, entry)) = entries.pop_front() {
        out.put_reserved(
            Process::Server(succ.id),
            Message::Update(succ.epoch, number, entry),
        );
    }
}

/// Sends what the successor lacks, whose last entry has this number.
pub(crate) fn send_above(
    alloc: Global,
    sent: &[(LogNumber, SharedEntry)],
    n: LogNumber,
    succ: &Neighbour,
    out: &mut Out<Snapshot>,
) -> Result<(), Memory>
    ensures puts { OnOk result (Puts out.old out.new (posts_above n sent.now succ.now)) }
    ensures silent { OnErr result (out.new.posts ≡ out.old.posts) }
    ensures some { OnErr result (0 < length (entries_above n sent.now)) }
{
    let entries = copies_above(alloc, sent, n)?;
    let Ok(()) = out.reserve(entries.len()) else {
        drop(entries);
        return Err(Memory);
    };
    put_all(entries, succ, out);
    Ok(())
}
