//! The world.
//!
//! # Why
//!
//! The invariant of a world says that there is a run from an initial state with its history. So
//! `history` says that it is linearizable, with no premise.
//!
//! `run` returns only that it ran, and `history` returns the history. A borrow that a call returns
//! of what it changes has no value of its own in that call's clauses. `run` takes its events by
//! value, since an event's call is used up where it begins.
//!
//! The past that was forgotten, and the tree that a world began with, are no fields. Each has a
//! flag, and the clauses say that it exists (`IsExplainedWithPast`, `IsExplainedFromStart`).

ghost use Rattle.std.specs.Prelude.{◌≡◌, ◌≤◌, [], true, false, IfOk, IsErr, OnErr, OnOk};
ghost use Rattle.ztree.specs.declared.limits.TheConstants.{MAX_CLIENTS};
ghost use Rattle.zprotocol.specs.server.Machine.{cached_tree};
ghost use Rattle.zprotocol.specs.world.PlainTree.{IsExplained};
ghost use Rattle.zserver.specs.Server.{IsFresh};
ghost use Rattle.zprotocol.specs.world.FromTree.{CanStart, opening_world_from};
ghost use Rattle.zprotocol.specs.world.World.{opening_world};
ghost use Rattle.zprotocol.specs.declared.world.settled.Settled.TheVariants.{Quiet};
ghost use Rattle.zworld.specs.Did.{HasCause, is_idle};
ghost use Rattle.zworld.specs.Steps.{CanWantMemory, CanWantMemoryToSettle, HasRunOut};
ghost use Rattle.zworld.specs.Steps.{HasBegunToRun, HasDone, HasRun, IsAtRest, IsExplainedFromStart};
ghost use Rattle.zworld.specs.Steps.{IsSettled, IsSettledActing, IsSound, world_in};
ghost use Rattle.zworld.specs.support.Settled.{IsSettledBy};

use crate::did::Did;
use crate::processes::Processes;
use std::alloc::Global;
use std::marker::Model;
use zalloc::Memory;
use zprotocol::ServerId;
use zprotocol::world::{CallEvent, Event, Settled};
use zserver::Snapshot;

/// All processes with their channels, and the history of what callers saw.
///
/// After it ran out of memory itself, `step`, `run` and `settle` return `Memory` for good, and the
/// history is preserved. Where a server runs out of memory, only that server stops, or drops a
/// query.
///
/// The history grows by each call and each response. A program that has read it may let the world
/// forget it: the history continues from there.
#[derive(Drop)]
pub struct World {
    processes: Processes,
    history: Vec<CallEvent>,
    has_forgotten: bool,
    is_restored: bool,
    is_broken: bool,
}

impl Model for World {
    ghost use Rattle.zworld.specs.Steps.{WorldView};
    ghost use Rattle.zworld.specs.support.Codes.{coded_world};
    ghost use Rattle.zworld.specs.support.Past.{HasPast};

    ghost Value = { WorldView };

    ghost coded = { coded_world };

    ghost view = { λ w. record {
      held = w.processes;
      history = w.history.items;
      has_forgotten = w.has_forgotten;
      is_restored = w.is_restored;
      is_broken = w.is_broken;
    } };

    ghost invariant = { λ w. HasPast w.is_restored w.has_forgotten w.is_broken w.processes
        w.history.items };
}

impl World {
    /// Returns the initial world: the chain is the servers up to `last`, and the others are spare.
    /// There are `clients` clients, numbered from 0, and the history is empty.
    pub fn new(alloc: Global, last: ServerId, clients: u8) -> Result<World, Memory>
        requires { clients ≤ MAX_CLIENTS }
        ensures world { IfOk result (λ w. world_in w ≡ opening_world cached_tree last clients) }
        ensures whole { IfOk result (λ w. w.has_forgotten ≡ false) }
        ensures initial { IfOk result (λ w. w.is_restored ≡ false) }
        ensures sound { IfOk result IsSound }
    {
        last.keeps_in_range();
        Ok(World {
            processes: Processes::new(alloc, last, clients)?,
            history: Vec::new(alloc),
            has_forgotten: false,
            is_restored: false,
            is_broken: false,
        })
    }

    /// Returns the initial world of a chain that begins with the snapshot's tree. Each server of
    /// the chain holds a copy of it. All clients begin anew, and the history is empty.
    pub fn restored(
        alloc: Global,
        last: ServerId,
        clients: u8,
        snapshot: &Snapshot,
    ) -> Result<World, Memory>
        requires few { clients ≤ MAX_CLIENTS }
        requires fresh { IsFresh snapshot.now }
        ensures world { IfOk result
            (λ w. world_in w ≡ opening_world_from snapshot.now.machine.plain last clients) }
        ensures can_start { CanStart snapshot.now.machine.plain }
        ensures past { IfOk result (λ w. w.has_forgotten ≡ true) }
        ensures restored { IfOk result (λ w. w.is_restored ≡ true) }
        ensures sound { IfOk result IsSound }
    {
        snapshot.keeps_lawful();
        last.keeps_in_range();
        Ok(World {
            processes: Processes::restored(alloc, last, clients, snapshot)?,
            history: Vec::new(alloc),
            has_forgotten: true,
            is_restored: true,
            is_broken: false,
        })
    }

    /// Returns the allocator that it was made with.
    pub fn allocator(&self) -> Global {
        self.processes.alloc
    }

    /// Returns what callers saw since the last `forget`: calls and responses, in the order of the
    /// events. After `Memory` it is the history before the call that failed.
    pub fn history(&self) -> &[CallEvent]
        ensures history { result.now ≡ self.now.history }
        ensures explained { IsExplainedFromStart self.now }
        ensures whole { self.now.has_forgotten ≡ false → IsExplained result.now }
    {
        &self.history
    }

    /// Returns the history, and drops the world.
    pub fn into_history(self) -> Vec<CallEvent>
        ensures history { result.items ≡ self.history }
        ensures explained { IsExplainedFromStart self }
        ensures whole { self.has_forgotten ≡ false → IsExplained result.items }
    {
        let World { history, .. } = self;
        history
    }

    /// Clears the history. What was cleared still counts as the past of what follows.
    pub fn forget(&mut self)
        ensures { self.new ≡ record self.old { history = []; has_forgotten = true } }
    {
        self.history.clear();
        self.has_forgotten = true;
    }

    /// Does one event, and returns what became of it. The first `Memory` comes only at an enabled
    /// event, and never at a failure or at the loss of a request.
    pub fn step(&mut self, event: Event) -> Result<Did, Memory>
        ensures happened { IfOk result (HasDone self.old self.new event) }
        ensures same { IfOk result (λ did. is_idle did ≡ true → self.new ≡ self.old) }
        ensures cause { IfOk result (HasCause self.old.held event) }
        ensures explained { IsExplainedFromStart self.new }
        ensures past { self.new.has_forgotten ≡ self.old.has_forgotten }
        ensures start { self.new.is_restored ≡ self.old.is_restored }
        ensures history { OnErr result (self.new.history ≡ self.old.history) }
        ensures sound { OnOk result (IsSound self.old × IsSound self.new) }
        ensures broken { OnErr result (self.new.is_broken ≡ true) }
        ensures stays { self.old.is_broken ≡ true → IsErr result }
        ensures needed { IsSound self.old → OnErr result (CanWantMemory self.old event) }
    {
        if self.is_broken {
            drop(event);
            return Err(Memory);
        }
        let did = self.processes.step(event, &mut self.history);
        self.is_broken = did.is_err();
        did
    }

    /// Does the events one after the other. The first `Memory` comes only at an event at which
    /// `step` may return it, and the history is then that of the events before it.
    pub fn run(&mut self, events: Vec<Event>) -> Result<(), Memory>
        ensures ran { OnOk result (HasRun (world_in self.old) events.items (world_in self.new)) }
        ensures explained { IsExplainedFromStart self.new }
        ensures past { self.new.has_forgotten ≡ self.old.has_forgotten }
        ensures start { self.new.is_restored ≡ self.old.is_restored }
        ensures kept { OnErr result
            (HasBegunToRun (world_in self.old) events.items self.new.history) }
        ensures sound { OnOk result (IsSound self.old × IsSound self.new) }
        ensures broken { OnErr result (self.new.is_broken ≡ true) }
        ensures stays { self.old.is_broken ≡ true → IsErr result }
        ensures needed { IsSound self.old → OnErr result
            (HasRunOut (world_in self.old) events.items self.new.history) }
    {
        if self.is_broken {
            return Err(Memory);
        }
        for event in events {
            self.step(event)?;
        }
        Ok(())
    }

    /// Runs the world until it is quiescent: delivers messages, channel by channel, until none can
    /// be delivered. Then each waiting client sends its call once more, and messages are delivered
    /// again. It ends early, with `Limit`, once `limit` events were done. The first `Memory` comes
    /// only where a message can be delivered or a client waits, and `limit` isn't 0. The history is
    /// then as before.
    pub fn settle(&mut self, limit: usize) -> Result<Settled, Memory>
        ensures settled { IfOk result (IsSettled self.old self.new limit) }
        ensures quiet { IfOk result (λ settled. settled ≡ Quiet → IsAtRest (world_in self.new)) }
        ensures explained { IsExplainedFromStart self.new }
        ensures past { self.new.has_forgotten ≡ self.old.has_forgotten }
        ensures start { self.new.is_restored ≡ self.old.is_restored }
        ensures history { OnErr result (self.new.history ≡ self.old.history) }
        ensures sound { OnOk result (IsSound self.old × IsSound self.new) }
        ensures broken { OnErr result (self.new.is_broken ≡ true) }
        ensures stays { self.old.is_broken ≡ true → IsErr result }
        ensures needed { IsSound self.old → OnErr result
            (CanWantMemoryToSettle (world_in self.old) limit) }
    {
        self.settle_by(limit, false)
    }

    /// Does the same, but is out of memory as soon as a server is. So it does only what a world
    /// with enough memory does.
    pub fn settle_strictly(&mut self, limit: usize) -> Result<Settled, Memory>
        ensures settled { IfOk result (IsSettledActing self.old self.new limit) }
        ensures quiet { IfOk result (λ settled. settled ≡ Quiet → IsAtRest (world_in self.new)) }
        ensures explained { IsExplainedFromStart self.new }
        ensures past { self.new.has_forgotten ≡ self.old.has_forgotten }
        ensures start { self.new.is_restored ≡ self.old.is_restored }
        ensures history { OnErr result (self.new.history ≡ self.old.history) }
        ensures sound { OnOk result (IsSound self.old × IsSound self.new) }
        ensures broken { OnErr result (self.new.is_broken ≡ true) }
        ensures stays { self.old.is_broken ≡ true → IsErr result }
        ensures needed { IsSound self.old → OnErr result
            (CanWantMemoryToSettle (world_in self.old) limit) }
    {
        self.settle_by(limit, true)
    }

    // Settles, strictly or not.
    fn settle_by(&mut self, limit: usize, strict: bool) -> Result<Settled, Memory>
        ensures settled { IfOk result (IsSettledBy strict self.old self.new limit) }
        ensures quiet { IfOk result (λ settled. settled ≡ Quiet → IsAtRest (world_in self.new)) }
        ensures explained { IsExplainedFromStart self.new }
        ensures past { self.new.has_forgotten ≡ self.old.has_forgotten }
        ensures start { self.new.is_restored ≡ self.old.is_restored }
        ensures history { OnErr result (self.new.history ≡ self.old.history) }
        ensures sound { OnOk result (IsSound self.old × IsSound self.new) }
        ensures broken { OnErr result (self.new.is_broken ≡ true) }
        ensures stays { self.old.is_broken ≡ true → IsErr result }
        ensures needed { IsSound self.old → OnErr result
            (CanWantMemoryToSettle (world_in self.old) limit) }
    {
        if self.is_broken {
            return Err(Memory);
        }
        let reported = self.history.len();
        match self.processes.settle(limit, strict, &mut self.history) {
            Ok(settled) => Ok(settled),
            Err(memory) => {
                self.history.truncate(reported);
                self.is_broken = true;
                Err(memory)
            }
        }
    }
}
