//! The server.

ghost use Rattle.std.specs.Prelude.{◌≡◌, ◌≤◌, ◌+◌, ◌-◌, ◌==◌, false, None, Some, Err};
ghost use Rattle.std.specs.Prelude.{IfOk, IfErr, OnErr, OnOk, if◌then◌else◌};
ghost use Rattle.zprotocol.specs.server.Machine.{cached_tree, cached_tree_from};
ghost use Rattle.zprotocol.specs.server.Table.{is_retirement};
ghost use Rattle.zprotocol.specs.server.View.{opening_server, spare};
ghost use Rattle.zserver.specs.declared.stopped.Stopped.{Stopped};
ghost use Rattle.zserver.specs.declared.stopped.Stopped.TheVariants.{Retired};
ghost use Rattle.zserver.specs.Server.{first_neighbour, first_view, running, IsFresh};
ghost use Rattle.zserver.specs.Server.{BecomesAt, PutsAt};
ghost use Rattle.zserver.specs.Server.{IsHeardOr, MayBeUnheard, IsStoppedAt};

use crate::replica::Replica;
use crate::snapshot::Snapshot;
use crate::stopped::Stopped;
use crate::taken::Taken;
use std::alloc::Global;
use std::marker::Model;
use std::mem::replace;
use zalloc::Memory;
use zprotocol::{Message, Out, Process, ServerId};

/// One server of the chain, or a spare one. It doesn't know its own number: no row of its table
/// asks for it. One that has stopped has dropped its state.
#[derive(Drop)]
pub struct Server {
    replica: Result<Replica, Stopped>,
}

impl Model for Server {
    ghost use Rattle.zserver.specs.Server.{ServerState};
    ghost use Rattle.zserver.specs.support.Codes.{coded_server};
    ghost use Rattle.zserver.specs.support.Replicas.{server_of};

    ghost Value = { ServerState };

    ghost coded = { coded_server };

    ghost view = { λ server. server_of server.replica };
}

impl Server {
    /// Returns a member of the initial chain, with an empty machine, between these neighbours.
    pub fn first(
        alloc: Global,
        pred: Option<ServerId>,
        succ: Option<ServerId>,
    ) -> Result<Server, Memory>
        ensures { IfOk result (λ server. server ≡ running (first_view pred succ)) }
    {
        let replica = Replica::member(alloc, pred, succ)?;
        Ok(Server {
            replica: Ok(replica),
        })
    }

    /// Returns the server with this id in its initial state, where the chain is the servers up to
    /// `last`: a member with an empty machine, or a spare one.
    pub fn opening(alloc: Global, id: ServerId, last: ServerId) -> Result<Server, Memory>
        ensures { IfOk result (λ server. server ≡ running (opening_server cached_tree last id)) }
    {
        if id.number() > last.number() {
            return Ok(Server::spare(alloc));
        }
        let (pred, succ) = neighbours(id, last);
        Server::first(alloc, pred, succ)
    }

    /// Returns the server with this id in its initial state, where the chain is the servers up to
    /// `last` and begins with the snapshot's tree. A member holds a copy of that tree.
    pub fn restored(
        alloc: Global,
        snapshot: &Snapshot,
        id: ServerId,
        last: ServerId,
    ) -> Result<Server, Memory>
        requires { IsFresh snapshot.now }
        ensures { IfOk result (λ server. server
            ≡ running (opening_server (cached_tree_from snapshot.now.machine.plain) last id)) }
    {
        if id.number() > last.number() {
            return Ok(Server::spare(alloc));
        }
        let (pred, succ) = neighbours(id, last);
        let replica = Replica::restored(alloc, snapshot, pred, succ)?;
        Ok(Server {
            replica: Ok(replica),
        })
    }

    /// Returns a server outside the chain, which has no state. It allocates nothing.
    pub fn spare(alloc: Global) -> Server
        ensures { result ≡ running spare }
    {
        Server {
            replica: Ok(Replica::spare(alloc)),
        }
    }

    /// Handles a received message by the server table.
    ///
    /// Out of memory stops a server only at a message that appends to its log or sends something.
    /// An order of the master to retire stops it too. A server that stops drops its state and sends
    /// nothing. A query never stops it: out of memory, it is dropped and reported as `Unheard`.
    #[inline(always)]
    pub fn take(
        &mut self,
        from: Process,
        message: Message<Snapshot>,
        out: &mut Out<Snapshot>,
    ) -> Result<Taken, Stopped>
        ensures running { OnOk result ((self.old.stopped ≡ None) × (self.new.stopped ≡ None)) }
        ensures next { IfOk result (BecomesAt self.old.view self.new.view from message) }
        ensures puts { IfOk result (PutsAt out.old out.new self.old.view from message) }
        ensures unheard { IfOk result (IsHeardOr (MayBeUnheard self.old.view from message)) }
        ensures serves { OnOk result (is_retirement from message ≡ false) }
        ensures stopped { IfErr result (λ why. self.new.stopped ≡ Some why) }
        ensures silent { OnErr result (out.new.posts ≡ out.old.posts) }
        ensures stays { (why : Stopped) → self.old.stopped ≡ Some why → result ≡ Err why }
        ensures caused { IfErr result (IsStoppedAt self.old from message) }
    {
        let replica = match &mut self.replica {
            Ok(replica) => replica,
            Err(_) => return Err(self.refuse(message)),
        };
        if let (Process::Master, Message::Retire) = (&from, &message) {
            return Err(self.refuse(message));
        }
        let sender = from;
        match replica.take(sender, message, out) {
            Ok(taken) => Ok(taken),
            Err(Memory) => Err(self.stop(Stopped::Memory)),
        }
    }

    // Drops a message that isn't taken, and returns why. A server that has not stopped is ordered
    // to leave. Cold path, out of line.
    #[cold]
    #[inline(never)]
    fn refuse(&mut self, message: Message<Snapshot>) -> Stopped
        ensures stopped { self.new.stopped ≡ Some result }
        ensures stays { (why : Stopped) → self.old.stopped ≡ Some why → result ≡ why }
        ensures ordered { self.old.stopped ≡ None → result ≡ Retired }
    {
        drop(message);
        match &self.replica {
            Ok(_) => self.stop(Stopped::Retired),
            Err(why) => *why,
        }
    }

    // Stops for good, and drops the state. Cold path, out of line.
    #[cold]
    #[inline(never)]
    fn stop(&mut self, why: Stopped) -> Stopped
        ensures stopped { self.new.stopped ≡ Some why }
        ensures reported { result ≡ why }
    {
        drop(replace(&mut self.replica, Err(why)));
        why
    }
}

// Returns the neighbours of a member of the initial chain.
fn neighbours(id: ServerId, last: ServerId) -> (Option<ServerId>, Option<ServerId>)
    requires { id ≤ last }
    ensures pred { first_neighbour result.0 ≡ (if id == 1 then None else Some (id - 1, 0)) }
    ensures succ { first_neighbour result.1 ≡ (if id == last then None else Some (id + 1, 0)) }
{
    let (number, end) = (id.number(), last.number());
    let pred = ServerId::new(number - 1);
    let succ = if number == end {
        None
    } else {
        ServerId::new(number + 1)
    };
    (pred, succ)
}
