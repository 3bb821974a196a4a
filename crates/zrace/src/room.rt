//! The memory of a race, apart from that of the cluster, the calls and the audit.

ghost use Rattle.std.specs.Prelude.{◌≡◌, [], All, IfOk, IsNone, length};
ghost use Rattle.std.specs.Arc.{arc_value};
ghost use Rattle.zchannels.specs.Passes.{IsPassOf};

use crate::field::Racing;
use crate::plan::Race;
use crate::runner::Seat;
use std::alloc::Global;
use std::sync::Arc;
use zalloc::Memory;
use zchannels::tickets::{Pass, Tickets};

/// Room for all racing clients, and for the nodes' versions.
#[derive(Drop)]
pub(crate) struct Room {
    pub(crate) seats: Vec<Seat>,
    pub(crate) handles: Vec<Racing>,
    pub(crate) versions: Vec<Option<u64>>,
    ghost none_runs: { handles.items ≡ [] },
    ghost none_reported: { All IsNone versions.items },
}

impl Room {
    /// Returns a seat for each racing client, and a slot for each node.
    pub(crate) fn new(alloc: Global, race: &Race) -> Result<Room, Memory>
        ensures { IfOk result (λ room. length room.versions.items ≡ race.now.rounds) }
    {
        let seats = seats_of(alloc, race)?;
        let versions = blank_versions(alloc, race.rounds)?;
        let handles = Vec::with_capacity(alloc, race.clients as usize)?;
        Ok(Room {
            seats,
            handles,
            versions,
        })
    }
}

// Returns the versions of `rounds` nodes, all unknown.
fn blank_versions(alloc: Global, rounds: u16) -> Result<Vec<Option<u64>>, Memory>
    ensures count { IfOk result (λ versions. length versions.items ≡ rounds) }
    ensures none { IfOk result (λ versions. All IsNone versions.items) }
{
    let mut versions = Vec::with_capacity(alloc, rounds as usize)?;
    for _ in 0..rounds {
        versions.push(None)?;
    }
    Ok(versions)
}

// Returns a seat for each racing client.
fn seats_of(alloc: Global, race: &Race) -> Result<Vec<Seat>, Memory> {
    let (tickets, mut passes) = shared_tickets(alloc, race)?;
    let mut seats = Vec::with_capacity(alloc, passes.len())?;
    while let Some(pass) = passes.pop() {
        seats.push(Seat::new(alloc, &tickets, pass, race.rounds)?)?;
    }
    Ok(seats)
}

// Returns the tickets, and a pass for each racing client.
fn shared_tickets(alloc: Global, race: &Race) -> Result<(Arc<Tickets, Global>, Vec<Pass>), Memory>
    ensures { IfOk result (λ shared.
        All (λ pass. IsPassOf (arc_value shared.0) pass) shared.1.items) }
{
    let (tickets, passes) = Tickets::new(alloc, race.clients as usize)?;
    Ok((Arc::new(alloc, tickets)?, passes))
}
