//! Which nodes a tick removes.

ghost use Rattle.std.specs.Prelude.{◌≡◌, IfOk, OnOk};
ghost use Rattle.zslots.specs.Ids.{Ids};
ghost use Rattle.zslots.specs.Lists.{IsList};
ghost use Rattle.ztree.specs.Stale.{stale_nodes};
ghost use Rattle.znodes.specs.NodesView.{AreStale};
ghost use Rattle.znodes.specs.support.Rows.{timed_links};
ghost use Rattle.znodes.specs.support.Reading.{is_stale_row, AreStaleOf, AddsStale};

use crate::nodes::Nodes;
use crate::paths::sorted_paths;
use crate::row::Row;
use std::alloc::Global;
use zalloc::Memory;
use zpath::Path;
use zslots::{Id, List, Slots};

impl Nodes {
    /// Returns the Ids of the nodes that a tick removes, each once; or `Memory`. They are due, and
    /// have no children. The cost depends on the number of containers and nodes with a TTL.
    pub fn stale(&self, tick: u64) -> Result<Vec<Id>, Memory>
        ensures { IfOk result (λ ids.
            AreStale self.now.nodes self.now.places tick ids.items) }
    {
        stale_in(self.alloc, &self.slots, self.timed, tick)
    }

    /// Returns the paths of the nodes that a tick removes, in their order; or `Memory`. The cost
    /// depends on the number of containers and nodes with a TTL.
    pub fn stale_paths(&self, tick: u64) -> Result<Vec<Path>, Memory>
        ensures { IfOk result (λ paths. paths.items ≡ stale_nodes self.now.nodes tick) }
    {
        let ids = self.stale(tick)?;
        sorted_paths(self.alloc, &self.slots, &ids)
    }
}

// Returns the rows of a list that a tick removes, in the list's order.
fn stale_in(alloc: Global, slots: &Slots<Row>, list: List<2>, tick: u64) -> Result<Vec<Id>, Memory>
    requires { (ids : Ids) × IsList timed_links slots.now.items list ids }
    ensures { IfOk result (λ stale. AreStaleOf slots.now.items tick list stale.items) }
{
    let mut stale = Vec::new(alloc);
    let mut at = list.first();
    while let Some(id) = at {
        push_stale(slots, id, tick, &mut stale)?;
        at = list.next(slots, id);
    }
    Ok(stale)
}

// Appends a row's Id, if a tick removes its node.
fn push_stale(slots: &Slots<Row>, id: Id, tick: u64, stale: &mut Vec<Id>) -> Result<(), Memory>
    ensures { OnOk result
        (AddsStale slots.now.items tick id stale.old.items stale.new.items) }
{
    if is_stale(slots, id, tick) {
        stale.push(id)?;
    }
    Ok(())
}

// Returns whether a tick removes a row's node, assuming that it is in the tree.
fn is_stale(slots: &Slots<Row>, id: Id, tick: u64) -> bool
    ensures { result ≡ is_stale_row slots.now.items tick id }
{
    match slots.get(id) {
        Some(row) => row.node.is_due(tick) && row.children.len() == 0,
        None => false,
    }
}
