//! The initial state.

ghost use Rattle.std.specs.Prelude.{◌≡◌, ◌≤◌, [], IfOk};
ghost use Rattle.ztree.specs.declared.limits.TheConstants.{MAX_CLIENTS};
ghost use Rattle.zprotocol.specs.server.Machine.{cached_tree, cached_tree_from};
ghost use Rattle.zserver.specs.Server.{IsFresh};
ghost use Rattle.zprotocol.specs.world.World.{opening_world};
ghost use Rattle.zprotocol.specs.world.FromTree.{opening_world_from};
ghost use Rattle.zworld.specs.Held.{kept_world};
ghost use Rattle.zworld.specs.support.Opening.{opening_actor, opening_actors, restored_actors};
ghost use Rattle.zworld.specs.support.Opening.{opening_client};

use crate::links::Links;
use crate::processes::Processes;
use std::alloc::Global;
use zactor::Actor;
use zalloc::Memory;
use zclient::ClientCore;
use zmaster::Master;
use zprotocol::{Out, PROCESSES, Process, ServerId};
use zserver::{Server, Snapshot};

impl Processes {
    /// Returns the initial state: the chain is the servers up to `last`, and there are this many
    /// clients.
    pub(crate) fn new(alloc: Global, last: ServerId, clients: u8) -> Result<Processes, Memory>
        requires { clients ≤ MAX_CLIENTS }
        ensures { IfOk result (λ a. kept_world a [] ≡ opening_world cached_tree last clients) }
    {
        last.keeps_in_range();
        Ok(Processes {
            alloc,
            actors: opening_actors(alloc, last, clients)?,
            links: Links::new(alloc)?,
            out: Out::new(alloc),
            waiting: 0,
        })
    }

    /// Returns the initial state of a chain that begins with the snapshot's tree.
    pub(crate) fn restored(
        alloc: Global,
        last: ServerId,
        clients: u8,
        snapshot: &Snapshot,
    ) -> Result<Processes, Memory>
        requires few { clients ≤ MAX_CLIENTS }
        requires fresh { IsFresh snapshot.now }
        ensures { IfOk result (λ a. kept_world a []
            ≡ opening_world_from snapshot.now.machine.plain last clients) }
    {
        last.keeps_in_range();
        Ok(Processes {
            alloc,
            actors: restored_actors(alloc, last, clients, snapshot)?,
            links: Links::new(alloc)?,
            out: Out::new(alloc),
            waiting: 0,
        })
    }
}

// Returns all processes, of which the servers up to `last` are the chain and this many clients take
// part.
fn opening_actors(alloc: Global, last: ServerId, clients: u8) -> Result<Vec<Actor>, Memory>
    requires { clients ≤ MAX_CLIENTS }
    ensures { IfOk result (λ actors. actors.items ≡ opening_actors last clients) }
{
    let mut actors = Vec::new(alloc);
    for place in 0..PROCESSES {
        let Some(process) = Process::at(place) else {
            unreachable!();
        };
        actors.push(opening_actor(alloc, process, last, clients)?)?;
    }
    Ok(actors)
}

// Returns one of those processes.
fn opening_actor(
    alloc: Global,
    process: Process,
    last: ServerId,
    clients: u8,
) -> Result<Actor, Memory>
    requires { clients ≤ MAX_CLIENTS }
    ensures { IfOk result (λ actor. actor ≡ opening_actor cached_tree last clients process) }
{
    match process {
        Process::Master => Ok(Actor::master(Master::new(last, clients))),
        Process::Server(id) => Ok(Actor::server(Server::opening(alloc, id, last)?)),
        Process::Client(id) => Ok(opening_client(alloc, id.number(), last, clients)),
    }
}

// Returns all processes, where the servers of the chain hold the snapshot's tree.
fn restored_actors(
    alloc: Global,
    last: ServerId,
    clients: u8,
    snapshot: &Snapshot,
) -> Result<Vec<Actor>, Memory>
    requires few { clients ≤ MAX_CLIENTS }
    requires fresh { IsFresh snapshot.now }
    ensures { IfOk result (λ actors. actors.items
        ≡ restored_actors snapshot.now.machine.plain last clients) }
{
    let mut actors = Vec::new(alloc);
    for place in 0..PROCESSES {
        let Some(process) = Process::at(place) else {
            unreachable!();
        };
        actors.push(restored_actor(alloc, process, last, clients, snapshot)?)?;
    }
    Ok(actors)
}

// Returns one of those processes.
fn restored_actor(
    alloc: Global,
    process: Process,
    last: ServerId,
    clients: u8,
    snapshot: &Snapshot,
) -> Result<Actor, Memory>
    requires few { clients ≤ MAX_CLIENTS }
    requires fresh { IsFresh snapshot.now }
    ensures { IfOk result (λ actor. actor
        ≡ opening_actor (cached_tree_from snapshot.now.machine.plain) last clients process) }
{
    match process {
        Process::Master => Ok(Actor::master(Master::new(last, clients))),
        Process::Server(id) => Ok(Actor::server(Server::restored(alloc, snapshot, id, last)?)),
        Process::Client(id) => Ok(opening_client(alloc, id.number(), last, clients)),
    }
}

// Returns the client of this number.
fn opening_client(alloc: Global, number: u8, last: ServerId, count: u8) -> Actor
    ensures { result ≡ opening_client last count number }
{
    if number < count {
        Actor::client(ClientCore::new(alloc, last))
    } else {
        Actor::client(ClientCore::outside(alloc))
    }
}
