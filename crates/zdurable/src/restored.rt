//! A front end that begins with the tree that its file holds.
//!
//! # Why
//! The clock stops while the service is down: time is counted by ticks. So no session expires
//! because of a restart, however long it took. The start of the clock is moved, so times continue
//! from now.

ghost use Rattle.std.specs.Prelude.{◌≡◌, IfOk};
ghost use Rattle.zdurable.specs.Restored.{clock_at, restored};

use std::alloc::Global;
use zalloc::Memory;
use zfront::{Clock, Front, Secret, Terms, WatchLimits};
use ztree_service::{LocalTree, TreeService};

/// Returns the clock of a tree that is at this tick now, with these terms. Its zxids go on, so they
/// have no base.
fn clock_at(terms: Terms, now_ms: u64, ticks: u64) -> Clock
    ensures { result ≡ clock_at terms now_ms ticks }
{
    let gone = ticks.saturating_mul(u64::from(terms.tick().millis()));
    Clock {
        terms,
        started: now_ms.saturating_sub(gone),
        base: 0,
    }
}

/// Returns a front end that begins with this tree, these terms and these limits of watches.
pub(crate) fn restored(
    alloc: Global,
    tree: LocalTree,
    secret: Secret,
    terms: Terms,
    now_ms: u64,
    limits: WatchLimits,
) -> Result<Front<LocalTree>, Memory>
    ensures { IfOk result (λ front. front
        ≡ restored limits secret terms now_ms tree.tree) }
{
    let (_, ticks) = tree.clock()?;
    let clock = clock_at(terms, now_ms, ticks);
    Front::new(alloc, tree, secret, clock, limits, true)
}
