//! All processes and their channels.
//!
//! # Why
//!
//! An event changes the channels and then a process, and between the two no run leads to the world.
//! So `World`, whose invariant is such a run, holds its `Processes` as a struct of their own.

ghost use Rattle.std.specs.Prelude.{◌≡◌, ◌≤◌, [], true, IfErr, IfOk, Ok, OnErr};
ghost use Rattle.ztree.specs.declared.limits.TheConstants.{MAX_CLIENTS};
ghost use Rattle.zactor.specs.Acting.{handed_by};
ghost use Rattle.zworld.specs.Held.{kept_world};
ghost use Rattle.zworld.specs.Steps.{can_want_memory};
ghost use Rattle.zworld.specs.support.Giving.{IsGiven, IsNotGiven};
ghost use Rattle.zworld.specs.support.Stepped.{Goes};

use crate::did::Did;
use crate::links::Links;
use crate::post::{end, post, waiting_after};
use std::alloc::Global;
use std::marker::Model;
use zactor::{ActFault, Actor, Done, Handed, Input};
use zalloc::Memory;
use zprotocol::world::{CallEvent, Event};
use zprotocol::{Out, Process};
use zserver::Snapshot;

/// The processes, each at its position, and the messages in flight. The list of what an event sends
/// is reused from one event to the next, and is empty between them. The waiting clients are
/// counted, so that settling looks for them only where there are some.
#[derive(Drop)]
pub(crate) struct Processes {
    pub(crate) alloc: Global,
    pub(crate) actors: Vec<Actor>,
    pub(crate) links: Links<Snapshot>,
    pub(crate) out: Out<Snapshot>,
    pub(crate) waiting: usize,
}

impl Model for Processes {
    ghost use Rattle.zworld.specs.Held.{Held};
    ghost use Rattle.zworld.specs.support.Codes.{coded_held};
    ghost use Rattle.zworld.specs.support.Standing.{IsFull};

    ghost Value = { Held };

    ghost coded = { coded_held };

    ghost view = { λ a. record { actors = a.actors.items; links = a.links } };

    ghost invariant = { λ a. IsFull a.actors.items a.links a.out.posts a.waiting };
}

impl Processes {
    /// Does one event: the only dispatch of events. What callers see of it is appended to what they
    /// saw before.
    pub(crate) fn step(&mut self, event: Event, seen: &mut Vec<CallEvent>) -> Result<Did, Memory>
        ensures goes { IfOk result (Goes self.old self.new event seen.old seen.new) }
        ensures stays { OnErr result (seen.new.items ≡ seen.old.items) }
        ensures needed { OnErr result (can_want_memory (kept_world self.old []) event ≡ true) }
    {
        match event {
            Event::Begin(client, call) => self.begin(client, call, seen),
            Event::Retry(client) => self.retry(client),
            Event::Take(from, to) => self.take(from, to, seen),
            Event::Ignore(from, to) => Ok(self.ignore(from, to)),
            Event::Fail(server) => Ok(self.fail(server)),
            Event::Order(order) => self.order(order),
        }
    }

    /// Gives a process an input: the only way in which one acts. What it sends is put on its
    /// channels, except what is for servers that have stopped. A server that stops by this sends
    /// its failure notice, and what is on channels to it is dropped. What it returns is put into
    /// the caller's slot.
    #[inline(always)]
    pub(crate) fn give(
        &mut self,
        process: &Process,
        input: Input,
        handed: &mut Handed,
    ) -> Result<Done, ActFault>
        ensures given { IfOk result (IsGiven self.old self.new process.now input) }
        ensures handed { IfOk result
            (λ done. handed.new ≡ handed_by input (Ok done) handed.old) }
        ensures fault { IfErr result (IsNotGiven self.old self.new process.now input) }
    {
        let done = self.actors[process.place()].act(input, &mut self.out, handed)?;
        self.waiting = waiting_after(self.waiting, &done);
        if done.is_end() {
            end(&mut self.links, process);
            return Ok(done);
        }
        let Ok(()) = post(
            self.alloc,
            &mut self.links,
            &self.actors,
            process,
            &mut self.out,
        ) else {
            drop(done);
            return Err(ActFault::Memory);
        };
        Ok(done)
    }

    /// Returns the number of clients.
    pub(crate) fn clients(&self) -> u8
        ensures same { result ≡ (kept_world self.now []).master.clients }
        ensures few { result ≤ MAX_CLIENTS }
    {
        let Some(master) = self.actors[0].as_master() else {
            unreachable!();
        };
        master.clients()
    }
}
