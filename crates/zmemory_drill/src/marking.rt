//! A store that has no memory for a savepoint represents the same tree, without the savepoint.

ghost use Rattle.std.specs.Prelude.{◌≡◌, IsSome};

use std::alloc::Global;
use zalloc::Memory;
use zstore::Store;
use ztesting::Ended;

// Room for undoing this many steps.
const STEPS: usize = 12;

/// Sets a savepoint at the initial state.
pub(crate) fn mark_is_set(alloc: Global) -> Ended {
    match Store::new(alloc) {
        Ok(mut store) => {
            let ended = marks(&mut store);
            drop(store);
            ended
        }
        Err(Memory) => Ended::NotBegun,
    }
}

fn marks(store: &mut Store) -> Ended {
    match goes_back(store) {
        Ok(is_same) => Ended::done(is_same),
        Err(Memory) => Ended::refused(is_opening(store) && goes_back(store) == Ok(true)),
    }
}

// Returns whether the store is the same after a savepoint and a rollback to it.
fn goes_back(store: &mut Store) -> Result<bool, Memory> {
    store.mark(STEPS)?;
    store.back();
    Ok(is_opening(store))
}

// Returns whether there is the root alone, and no change was made.
fn is_opening(store: &Store) -> bool {
    store.nodes() == 1 && store.sessions() == 0 && store.zxid().number() == 0 && store.given() <= 1
}
