//! What a racing client's thread does.

ghost use Rattle.std.specs.Prelude.{◌≡◌, [], IfOk};
ghost use Rattle.std.specs.Arc.{arc_value};
ghost use Rattle.zchannels.specs.Passes.{IsPassOf};
ghost use Rattle.zrun.specs.Clients.{SameClient};

use crate::racer::{Racer, Seen};
use std::alloc::Global;
use std::sync::Arc;
use zalloc::Memory;
use zchannels::tickets::{Pass, Tickets};
use zprotocol::ServerId;
use zrun::Client;

// How often a pass may draw.
const DRAWS: u64 = 1 << 32;

/// What a thread needs to race besides a client: its pass, and room for the client's versions.
#[derive(Drop)]
pub(crate) struct Seat {
    tickets: Arc<Tickets, Global>,
    pass: Pass,
    seen: Seen,
    ghost own: { IsPassOf (arc_value tickets) pass },
    ghost blank: { seen.items ≡ [] },
}

/// A racing client with its seat.
#[derive(Drop)]
pub(crate) struct Runner {
    pub(crate) racer: Racer,
    tickets: Arc<Tickets, Global>,
    pass: Pass,
    ghost own: { IsPassOf (arc_value tickets) pass },
}

impl Seat {
    /// Returns a seat with that pass, and room for `rounds` nodes.
    pub(crate) fn new(
        alloc: Global,
        tickets: &Arc<Tickets, Global>,
        pass: Pass,
        rounds: u16,
    ) -> Result<Seat, Memory>
        requires { IsPassOf (arc_value tickets.now) pass }
    {
        let tickets = Arc::try_clone(tickets)?;
        let seen = Vec::with_capacity(alloc, rounds as usize)?;
        Ok(Seat {
            tickets,
            pass,
            seen,
        })
    }

    /// Gives the seat to this client.
    pub(crate) fn taken_by(self, client: Client) -> Runner
        ensures { result.racer.client ≡ client }
    {
        let Seat {
            tickets,
            pass,
            seen,
        } = self;
        Runner {
            racer: Racer::new(client, seen),
            tickets,
            pass,
        }
    }
}

impl Runner {
    /// Draws nodes until none is left, and makes the three calls of each. It ends early where a
    /// node gets no version. Returns its client, with the versions that it received.
    pub(crate) fn run(mut self, alloc: Global, rounds: u64, halt: Option<ServerId>) -> Racer
        ensures { SameClient self.racer.client result.client }
    {
        for _ in 0..rounds {
            if !self.run_lap(alloc, rounds, &halt) {
                break;
            }
        }
        let Runner { racer, .. } = self;
        racer
    }

    // Draws a node, and makes its calls. Returns false where no node is left, or the node gets no
    // version.
    fn run_lap(&mut self, alloc: Global, rounds: u64, halt: &Option<ServerId>) -> bool
        ensures { SameClient self.old.racer.client self.new.racer.client }
    {
        if self.pass.count() >= DRAWS {
            return false;
        }
        let runner = &mut *self;
        let node = runner.tickets.draw(&mut runner.pass);
        if node >= rounds {
            return false;
        }
        let halted = if node == rounds / 2 { *halt } else { None };
        self.racer.lap(alloc, node, halted)
    }
}
