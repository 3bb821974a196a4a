//! Handing the state of a server to one that has none.

ghost use Rattle.std.specs.Prelude.{◌≡◌, ◌∷◌, [], OnErr, OnOk};
ghost use Rattle.zprotocol.specs.Posts.{Puts};
ghost use Rattle.zprotocol.specs.server.Table.{snapshot_row};
ghost use Rattle.zserver.specs.support.Replicas.{snapshot_post, GrowsBy};

use crate::neighbour::{Neighbour, is_neighbour};
use crate::replica::Replica;
use crate::snapshot::Snapshot;
use std::alloc::Global;
use zalloc::Memory;
use zops::Machine;
use zprotocol::{Epoch, Message, Out, Process, ServerId};

impl Replica {
    /// `Snapshot`: from the predecessor, at a server without state. Cold path: it comes once, so it
    /// is out of line.
    #[cold]
    #[inline(never)]
    #[tactic(auto, unfolding(zprotocol::specs::server::Table::snapshot_row))]
    pub(crate) fn snapshot(
        &mut self,
        from: ServerId,
        epoch: Epoch,
        snapshot: Snapshot,
        out: &mut Out<Snapshot>,
    ) -> Result<(), Memory>
        ensures next { OnOk result (self.new ≡ (snapshot_row self.old from epoch snapshot).0) }
        ensures puts { OnOk result
            (Puts out.old out.new (snapshot_row self.old from epoch snapshot).1) }
        ensures silent { OnErr result (out.new.posts ≡ out.old.posts) }
        ensures grows { OnErr result
            (GrowsBy self.old (snapshot_row self.old from epoch snapshot)) }
    {
        if self.machine.is_some() || !is_neighbour(&self.pred, from, epoch) {
            drop(snapshot);
            return Ok(());
        }
        let Ok(()) = out.reserve(2) else {
            drop(snapshot);
            return Err(Memory);
        };
        out.put_reserved(Process::Server(from), Message::Ack(epoch, snapshot.last()));
        out.put_reserved(Process::Master, Message::Joined(epoch));
        drop(self.machine.replace(snapshot.into_machine()));
        self.sent.clear();
        Ok(())
    }
}

/// Sends the whole state to the successor, which has none.
pub(crate) fn hand_over(
    alloc: Global,
    machine: &Machine,
    succ: &Neighbour,
    out: &mut Out<Snapshot>,
) -> Result<(), Memory>
    ensures puts { OnOk result (Puts out.old out.new (snapshot_post succ.now machine.now ∷ [])) }
    ensures silent { OnErr result (out.new.posts ≡ out.old.posts) }
{
    let snapshot = Snapshot::of(alloc, machine)?;
    let Ok(()) = out.reserve(1) else {
        drop(snapshot);
        return Err(Memory);
    };
    out.put_reserved(
        Process::Server(succ.id),
        Message::Snapshot(succ.epoch, snapshot),
    );
    Ok(())
}
