//! One list of ten thousand events, through one `World::run`, and a call after it that settles.

use crate::asking::{creates, is_answered, settles};
use crate::base::{CLIENT, process, server};
use crate::trouble::Trouble;
use std::alloc::Global;
use zcalls::{Kind, Lifetime};
use zprotocol::Process;
use zprotocol::world::Event;
use zworld::World;

/// How many calls the list has. Each is five events.
const CALLS: usize = 2_000;

/// Runs the list over a chain of two, and answers how many events the history has.
pub fn long(alloc: Global) -> Result<usize, Trouble> {
    let mut world = World::new(alloc, server(2)?, 2)?;
    let reported = run_in(&mut world, alloc);
    drop(world);
    reported
}

// The run in this world.
fn run_in(world: &mut World, alloc: Global) -> Result<usize, Trouble> {
    world.run(events(alloc)?)?;
    world.step(creates(alloc, "/n-", Kind::sequential(Lifetime::Persistent))?)?;
    settles(world)?;
    if is_answered(world.history()) {
        Ok(world.history().len())
    } else {
        Err(Trouble::NotAnswered)
    }
}

fn events(alloc: Global) -> Result<Vec<Event>, Trouble> {
    let mut events = Vec::new(alloc);
    match add_calls(&mut events, alloc) {
        Ok(()) => Ok(events),
        Err(trouble) => {
            drop(events);
            Err(trouble)
        }
    }
}

// Each call begins, passes the head and the tail, and is answered. The tail's receipt comes back.
fn add_calls(events: &mut Vec<Event>, alloc: Global) -> Result<(), Trouble> {
    let (one, two) = (process(1)?, process(2)?);
    let caller = process(CLIENT)?;
    for _ in 0..CALLS {
        events.push(creates(alloc, "/n-", Kind::sequential(Lifetime::Persistent))?)?;
        add_takes(
            events,
            &[(caller, one), (one, two), (two, caller), (two, one)],
        )?;
    }
    Ok(())
}

// From the one process to the other a message is received.
fn add_takes(events: &mut Vec<Event>, links: &[(Process, Process)]) -> Result<(), Trouble> {
    for &(from, to) in links {
        events.push(Event::Take(from, to))?;
    }
    Ok(())
}
