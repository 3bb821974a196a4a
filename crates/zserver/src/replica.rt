//! What a server knows.

ghost use Rattle.std.specs.Prelude.{◌≡◌, true, is_some, IfOk, OnErr, OnOk};
ghost use Rattle.zprotocol.specs.server.View.{spare};
ghost use Rattle.zprotocol.specs.Posts.{Puts};
ghost use Rattle.zprotocol.specs.server.Table.{ack_posts, last_number};
ghost use Rattle.zserver.specs.Server.{first_neighbour, first_view, first_view_from, IsFresh};

use crate::neighbour::Neighbour;
use crate::sent::Sent;
use crate::snapshot::{Snapshot, log_number};
use std::alloc::Global;
use std::marker::Model;
use zalloc::Memory;
use zops::Machine;
use zprotocol::{Epoch, LogNumber, Message, Out, Process, ServerId};

/// What a running server knows. Its machine, if it has one, never ran out of memory. The machine
/// counts the entries, so the number of the last one is no field.
#[derive(Drop)]
pub(crate) struct Replica {
    pub(crate) alloc: Global,
    pub(crate) machine: Option<Machine>,
    pub(crate) sent: Sent,
    pub(crate) pred: Option<Neighbour>,
    pub(crate) succ: Option<Neighbour>,
}

impl Model for Replica {
    ghost use Rattle.zserver.specs.Server.{TreeView};
    ghost use Rattle.zserver.specs.support.Codes.{coded_view};
    ghost use Rattle.zserver.specs.support.Replicas.{state_of, last_of, IsWhole};

    ghost Value = { TreeView };

    ghost coded = { coded_view };

    ghost view = { λ r. record {
      machine = state_of r.machine;
      last = last_of r.machine;
      sent = r.sent.items;
      pred = r.pred;
      succ = r.succ;
    } };

    ghost invariant = { λ r. IsWhole r.machine };
}

impl Replica {
    /// Returns a member of the initial chain.
    pub(crate) fn member(
        alloc: Global,
        pred: Option<ServerId>,
        succ: Option<ServerId>,
    ) -> Result<Replica, Memory>
        ensures { IfOk result (λ replica. replica ≡ first_view pred succ) }
    {
        Ok(Replica {
            alloc,
            machine: Some(Machine::new(alloc)?),
            sent: Vec::new(alloc),
            pred: first_neighbour(pred),
            succ: first_neighbour(succ),
        })
    }

    /// Returns a member of an initial chain that begins with the snapshot's tree.
    pub(crate) fn restored(
        alloc: Global,
        snapshot: &Snapshot,
        pred: Option<ServerId>,
        succ: Option<ServerId>,
    ) -> Result<Replica, Memory>
        requires { IsFresh snapshot.now }
        ensures { IfOk result (λ replica. replica
            ≡ first_view_from snapshot.now.machine.plain pred succ) }
    {
        Ok(Replica {
            alloc,
            machine: Some(snapshot.machine().copy()?),
            sent: Vec::new(alloc),
            pred: first_neighbour(pred),
            succ: first_neighbour(succ),
        })
    }

    /// Returns a server outside the chain.
    pub(crate) fn spare(alloc: Global) -> Replica
        ensures { result ≡ spare }
    {
        Replica {
            alloc,
            machine: None,
            sent: Vec::new(alloc),
            pred: None,
            succ: None,
        }
    }

    /// Returns the number of its last entry, where it has the state.
    pub(crate) fn last(&self) -> Option<LogNumber>
        ensures { result ≡ last_number self.now }
    {
        match &self.machine {
            Some(machine) => Some(log_number(machine)),
            None => None,
        }
    }
}

/// Acknowledges the entries up to this number to the predecessor, if there is one. It reserves the
/// room before it sends.
pub(crate) fn acknowledge(
    pred: &Option<Neighbour>,
    n: LogNumber,
    out: &mut Out<Snapshot>,
) -> Result<(), Memory>
    ensures puts { OnOk result (Puts out.old out.new (ack_posts pred.now n)) }
    ensures silent { OnErr result (out.new.posts ≡ out.old.posts) }
    ensures reported { OnErr result (is_some pred.now ≡ true) }
{
    if let Some(pred) = pred {
        out.reserve(1)?;
        out.put_reserved(Process::Server(pred.id), Message::Ack(pred.epoch, n));
    }
    Ok(())
}

// Returns a neighbour in the initial chain.
fn first_neighbour(server: Option<ServerId>) -> Option<Neighbour>
    ensures { result ≡ first_neighbour server }
{
    match server {
        Some(id) => Some(Neighbour {
            id,
            epoch: Epoch::opening(),
        }),
        None => None,
    }
}
