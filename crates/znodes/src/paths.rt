//! The paths of some nodes, in their order.

ghost use Rattle.std.specs.Prelude.{◌≡◌, [], ◌∷◌, ◌++◌, IfOk, OnOk, IfSome};
ghost use Rattle.zslots.specs.Ids.{Ids};
ghost use Rattle.zslots.specs.Lists.{IsList};
ghost use Rattle.znodes.specs.support.OwnerLists.{list_of};
ghost use Rattle.znodes.specs.support.Rows.{fellow_links};
ghost use Rattle.znodes.specs.support.Reading.{paths_at, AreSorted, AreOwnedIds, AreOwnedPaths};

use crate::owners::Owners;
use crate::row::Row;
use std::alloc::Global;
use zalloc::Memory;
use zpath::Path;
use zslots::{Id, List, Slots};

// Returns the paths of the rows of an owner's list, in their order. Without a list there are none.
pub(crate) fn owned_paths(
    alloc: Global,
    slots: &Slots<Row>,
    owners: &Owners,
    owner: u64,
) -> Result<Vec<Path>, Memory>
    requires { IfSome (list_of owners.now owner) (λ list.
        (ids : Ids) × IsList fellow_links slots.now.items list ids) }
    ensures { IfOk result (λ paths.
        AreOwnedPaths slots.now.items (list_of owners.now owner) paths.items) }
{
    let Some(list) = owners.list(owner) else {
        return Ok(Vec::new(alloc));
    };
    let ids = owned_ids(alloc, slots, list)?;
    sorted_paths(alloc, slots, &ids)
}

// Returns the Ids of an owner's list, in the list's order.
fn owned_ids(alloc: Global, slots: &Slots<Row>, list: List<1>) -> Result<Vec<Id>, Memory>
    requires { (ids : Ids) × IsList fellow_links slots.now.items list ids }
    ensures { IfOk result (λ found. AreOwnedIds slots.now.items list found.items) }
{
    let mut found = Vec::with_capacity(alloc, list.len())?;
    let mut at = list.first();
    while let Some(id) = at {
        found.push(id)?;
        at = list.next(slots, id);
    }
    Ok(found)
}

// Returns the paths of the rows that Ids name, in their order.
pub(crate) fn sorted_paths(
    alloc: Global,
    slots: &Slots<Row>,
    ids: &[Id],
) -> Result<Vec<Path>, Memory>
    ensures { IfOk result (λ paths. AreSorted slots.now.items ids.now paths.items) }
{
    let mut paths = row_paths(alloc, slots, ids)?;
    paths.sort_unstable();
    Ok(paths)
}

// Returns the paths of the rows that Ids name, in the order of the Ids.
fn row_paths(alloc: Global, slots: &Slots<Row>, ids: &[Id]) -> Result<Vec<Path>, Memory>
    ensures { IfOk result (λ paths. paths.items ≡ paths_at slots.now.items ids.now) }
{
    let mut paths = Vec::with_capacity(alloc, ids.len())?;
    for id in ids {
        push_path(slots, *id, &mut paths)?;
    }
    Ok(paths)
}

// Appends a row's path.
fn push_path(slots: &Slots<Row>, id: Id, paths: &mut Vec<Path>) -> Result<(), Memory>
    ensures { OnOk result
        (paths.new.items ≡ paths.old.items ++ paths_at slots.now.items (id ∷ [])) }
{
    if let Some(row) = slots.get(id) {
        paths.push(row.path.clone()?)?;
    }
    Ok(())
}
