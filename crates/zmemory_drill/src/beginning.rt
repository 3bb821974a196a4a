//! A world for which there is no memory: nothing is left of it, and another one can begin.

use std::alloc::Global;
use zalloc::Memory;
use ztesting::{Ended, server};
use zworld::World;

/// Three servers and two clients.
pub(crate) fn world_begins(alloc: Global) -> Ended {
    match is_begun(alloc) {
        Ok(is_blank) => Ended::done(is_blank),
        Err(Memory) => Ended::refused(is_begun(alloc) == Ok(true)),
    }
}

// Whether nothing has happened in a world that was begun.
fn is_begun(alloc: Global) -> Result<bool, Memory> {
    let world = World::new(alloc, server(3), 2)?;
    let is_blank = world.history().is_empty();
    drop(world);
    Ok(is_blank)
}
