//! The watches that an event fires: their connections, and the table without them.

ghost use Rattle.std.specs.Prelude.{◌≡◌, ◌∷◌, [], IfOk, OnOk};
ghost use Rattle.std.specs.FinSet.{from_list, items, retain};
ghost use Rattle.std.specs.Ordering.{nat_cmp};
ghost use Rattle.zwatches.specs.Watches.{place};
ghost use Rattle.zwatches.specs.declared.kind.Kind.TheVariants.{EachData};
ghost use Rattle.zjute.specs.declared.event.EventKind.TheVariants.{NodeDeleted};
ghost use Rattle.zwatches.specs.Events.{above, is_awaited, fired_at, reported, unfired, Lists};
ghost use Rattle.zwatches.specs.support.Groups.{AddsWaiting, found_by, is_left, once_at};
ghost use Rattle.zwatches.specs.support.Nested.{AreFound};

use crate::by_connection::ByConnection;
use crate::counted::Counted;
use crate::kind::Kind;
use crate::removal::tidy;
use crate::slot::Slot;
use std::alloc::Global;
use zalloc::Memory;
use zjute::EventKind;
use zpath::{Name, Path};

// Adds the connections of the watches at a position.
fn report_at(
    watches: &Counted,
    reported: &mut Vec<u32>,
    names: &[Name],
    kind: Kind,
) -> Result<(), Memory>
    ensures { OnOk result (AddsWaiting watches.now reported.old.items reported.new.items
        (place names.now kind ∷ [])) }
{
    watches.report(reported, names, kind)
}

// Adds the connections of the recursive watches of a path and of those above it.
fn report_above(watches: &Counted, reported: &mut Vec<u32>, names: &[Name]) -> Result<(), Memory>
    ensures { OnOk result (AddsWaiting watches.now reported.old.items reported.new.items
        (above names.now)) }
{
    for depth in 0..names.len() {
        report_at(watches, reported, &names[..depth], Kind::Recursive)?;
    }
    report_at(watches, reported, names, Kind::Recursive)
}

// Adds the connections of the watches that wait for each change of a node, but of its children.
fn report_each(watches: &Counted, reported: &mut Vec<u32>, names: &[Name]) -> Result<(), Memory>
    ensures { OnOk result (AddsWaiting watches.now reported.old.items reported.new.items
        (place names.now EachData ∷ above names.now)) }
{
    report_at(watches, reported, names, Kind::EachData)?;
    report_above(watches, reported, names)
}

// Adds the connections of the watches that an event fires.
fn tell(
    watches: &Counted,
    reported: &mut Vec<u32>,
    event: EventKind,
    names: &[Name],
) -> Result<(), Memory>
    ensures { OnOk result (AddsWaiting watches.now reported.old.items reported.new.items
        (fired_at event names.now)) }
{
    match event {
        EventKind::NodeCreated => {
            report_at(watches, reported, names, Kind::Data)?;
            report_at(watches, reported, names, Kind::Missing)?;
            report_each(watches, reported, names)
        }
        EventKind::NodeDataChanged => {
            report_at(watches, reported, names, Kind::Data)?;
            report_each(watches, reported, names)
        }
        EventKind::NodeDeleted => {
            report_at(watches, reported, names, Kind::Data)?;
            report_at(watches, reported, names, Kind::Children)?;
            report_at(watches, reported, names, Kind::EachData)?;
            report_at(watches, reported, names, Kind::EachChildren)?;
            report_above(watches, reported, names)
        }
        EventKind::NodeChildrenChanged => {
            report_at(watches, reported, names, Kind::Children)?;
            report_at(watches, reported, names, Kind::EachChildren)
        }
        _ => Ok(()),
    }
}

// Sorts numbers and removes duplicates.
fn make_rising(numbers: &mut Vec<u32>)
    ensures { Lists numbers.new.items (from_list {R = nat_cmp} numbers.old.items) }
{
    numbers.sort_unstable();
    numbers.dedup();
}

// Returns the connections that an event notifies.
pub(crate) fn reported_of(
    alloc: Global,
    watches: &Counted,
    event: EventKind,
    names: &[Name],
) -> Result<Vec<u32>, Memory>
    ensures { IfOk result (λ numbers. Lists numbers.items
        (reported watches.now event names.now)) }
{
    let mut reported = Vec::new(alloc);
    tell(watches, &mut reported, event, names)?;
    make_rising(&mut reported);
    Ok(reported)
}

// Returns whether there is a recursive watch of a path, or of one above it.
fn has_above(watches: &Counted, names: &[Name]) -> bool
    ensures { result ≡ found_by (items watches.now) (above names.now) }
{
    for depth in 0..names.len() {
        if watches.has(&names[..depth], Kind::Recursive) {
            return true;
        }
    }
    watches.has(names, Kind::Recursive)
}

// Returns whether there is a watch at a position of a deletion.
fn has_end(watches: &Counted, names: &[Name]) -> bool
    ensures { result ≡ found_by (items watches.now) (fired_at NodeDeleted names.now) }
{
    watches.has(names, Kind::Data)
        || watches.has(names, Kind::Children)
        || watches.has(names, Kind::EachData)
        || watches.has(names, Kind::EachChildren)
        || has_above(watches, names)
}

// Returns whether the deletion of a node is awaited.
pub(crate) fn awaits_end(watches: &Counted, names: &[Name]) -> bool
    ensures { result ≡ is_awaited watches.now NodeDeleted names.now }
{
    has_end(watches, names)
}

// Removes the watches of these connections at a position.
fn remove_at(
    watches: &mut Counted,
    paths: &mut ByConnection,
    connections: &[u32],
    path: &Path,
    kind: Kind,
)
    requires { AreFound paths.old.paths.entries watches.old }
    ensures found { AreFound paths.new.paths.entries watches.new }
    ensures gone { watches.new ≡ retain watches.old (is_left connections.now
        (place path.now kind ∷ [])) }
{
    for connection in connections {
        let connection = *connection;
        if watches.remove(path.names(), Slot { kind, connection }) {
            tidy(watches, paths, path, connection);
        }
    }
}

// Removes the watches of these connections at the positions of an event that wait for one change.
#[tactic(auto, using(crate::proofs::Unfired::left_nowhere))]
fn remove_each(
    watches: &mut Counted,
    paths: &mut ByConnection,
    connections: &[u32],
    event: EventKind,
    path: &Path,
)
    requires { AreFound paths.old.paths.entries watches.old }
    ensures found { AreFound paths.new.paths.entries watches.new }
    ensures gone { watches.new ≡ retain watches.old (is_left connections.now
        (once_at event path.now)) }
{
    match event {
        EventKind::NodeCreated => {
            remove_at(watches, paths, connections, path, Kind::Data);
            remove_at(watches, paths, connections, path, Kind::Missing);
        }
        EventKind::NodeDataChanged => remove_at(watches, paths, connections, path, Kind::Data),
        EventKind::NodeDeleted => {
            remove_at(watches, paths, connections, path, Kind::Data);
            remove_at(watches, paths, connections, path, Kind::Children);
        }
        EventKind::NodeChildrenChanged => {
            remove_at(watches, paths, connections, path, Kind::Children);
        }
        _ => {}
    }
}

// Removes the watches that an event fires, except those that stay. The connections are those that
// it notifies.
pub(crate) fn remove_fired(
    watches: &mut Counted,
    paths: &mut ByConnection,
    connections: &[u32],
    event: EventKind,
    path: &Path,
)
    requires found { AreFound paths.old.paths.entries watches.old }
    requires listed { Lists connections.now (reported watches.old event path.now) }
    ensures found { AreFound paths.new.paths.entries watches.new }
    ensures gone { watches.new ≡ unfired watches.old event path.now }
{
    remove_each(watches, paths, connections, event, path);
}
