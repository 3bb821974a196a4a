//! Orders that are given to the master of a world: a server is to join, or a member is to leave.

use crate::running::is_broken;
use std::alloc::Global;
use zalloc::Memory;
use zprotocol::world::Event;
use ztesting::{Ended, server};
use zworld::{Did, World};

/// A server is to join after the tail.
pub(crate) fn server_joins(alloc: Global) -> Ended {
    is_given(alloc, Event::join(server(3)))
}

/// The head is to leave.
pub(crate) fn server_leaves(alloc: Global) -> Ended {
    is_given(alloc, Event::retire(server(1)))
}

// The order is given in a world of its own.
fn is_given(alloc: Global, order: Event) -> Ended {
    let Ok(mut world) = World::new(alloc, server(2), 2) else {
        drop(order);
        return Ended::NotBegun;
    };
    let ended = gives(&mut world, order);
    drop(world);
    ended
}

// If it was given, no other member may leave yet. Otherwise the world returns Memory for
// everything.
fn gives(world: &mut World, order: Event) -> Ended {
    match world.step(order) {
        Ok(did) => {
            let next = world.step(Event::retire(server(2)));
            Ended::done(did == Did::Done && matches!(next, Ok(Did::Idle(_))))
        }
        Err(Memory) => Ended::refused(is_broken(world, 0)),
    }
}
