//! The watches that a request checks or removes.

ghost use Rattle.std.specs.Prelude.{◌≡◌, ◌&&◌, not};
ghost use Rattle.std.specs.FinSet.{contains, retain};
ghost use Rattle.zjute.specs.declared.watch_type.WatchType.TheVariants as type;
ghost use Rattle.zwatches.specs.Removal as table;
ghost use Rattle.zwatches.specs.Removal.{without_meant};
ghost use Rattle.zwatches.specs.Events.{without};
ghost use Rattle.zwatches.specs.Watches.{watch};
ghost use Rattle.zwatches.specs.support.Nested.{AreFound, is_of, slot_of};

use crate::by_connection::ByConnection;
use crate::counted::Counted;
use crate::kind::Kind;
use crate::slot::Slot;
use zjute::WatchType;
use zpath::{Name, Path};

// Returns whether a watch of this kind has this type.
fn has_type(kind: Kind, type_of: WatchType) -> bool
    ensures { result ≡ table.has_type type_of kind }
{
    match type_of {
        WatchType::Any => true,
        WatchType::Children => matches!(kind, Kind::Children | Kind::EachChildren),
        WatchType::Data => !matches!(kind, Kind::Children | Kind::EachChildren),
    }
}

// Returns whether a connection has a watch of this kind, if the kind has this type.
fn has_kind(
    watches: &Counted,
    connection: u32,
    type_of: WatchType,
    names: &[Name],
    kind: Kind,
) -> bool
    ensures { result ≡ (table.has_type type_of kind
        && contains watches.now (watch names.now kind connection)) }
{
    has_type(kind, type_of) && watches.contains(names, Slot { kind, connection })
}

// Returns whether there is such a watch.
pub(crate) fn has_meant(
    watches: &Counted,
    connection: u32,
    type_of: WatchType,
    names: &[Name],
) -> bool
    ensures { result ≡ table.has_meant watches.now connection type_of names.now }
{
    let of_data = has_kind(watches, connection, type_of, names, Kind::Data);
    let missing = has_kind(watches, connection, type_of, names, Kind::Missing);
    let children = has_kind(watches, connection, type_of, names, Kind::Children);
    let each_data = has_kind(watches, connection, type_of, names, Kind::EachData);
    let each_children = has_kind(watches, connection, type_of, names, Kind::EachChildren);
    let recursive = has_kind(watches, connection, type_of, names, Kind::Recursive);
    of_data | missing | children | each_data | each_children | recursive
}

// Returns whether a connection has a watch at a path.
fn has_any(watches: &Counted, connection: u32, names: &[Name]) -> bool
    ensures { result ≡ table.has_meant watches.now connection type.Any names.now }
{
    has_meant(watches, connection, WatchType::Any, names)
}

// Removes a path under a connection that has no watch there.
pub(crate) fn tidy(watches: &Counted, paths: &mut ByConnection, path: &Path, connection: u32)
    requires { AreFound paths.old.paths.entries watches.now }
    ensures { AreFound paths.new.paths.entries watches.now }
{
    if !has_any(watches, connection, path.names()) {
        paths.remove(connection, path);
    }
}

// Removes the watch of this kind, if the kind has this type.
fn remove_kind(
    watches: &mut Counted,
    connection: u32,
    type_of: WatchType,
    names: &[Name],
    kind: Kind,
)
    ensures { watches.new ≡ retain watches.old (λ w. not
        (table.is_meant connection type_of names.now w && is_of kind (slot_of w))) }
{
    if has_type(kind, type_of) {
        let _ = watches.remove(names, Slot { kind, connection });
    }
}

// Removes the watches that are meant.
fn remove_each(watches: &mut Counted, connection: u32, type_of: WatchType, names: &[Name])
    ensures { watches.new ≡ without_meant watches.old connection type_of names.now }
{
    remove_kind(watches, connection, type_of, names, Kind::Data);
    remove_kind(watches, connection, type_of, names, Kind::Missing);
    remove_kind(watches, connection, type_of, names, Kind::Children);
    remove_kind(watches, connection, type_of, names, Kind::EachData);
    remove_kind(watches, connection, type_of, names, Kind::EachChildren);
    remove_kind(watches, connection, type_of, names, Kind::Recursive);
}

// Removes the watches that are meant.
pub(crate) fn remove_meant(
    watches: &mut Counted,
    paths: &mut ByConnection,
    connection: u32,
    type_of: WatchType,
    path: &Path,
)
    requires { AreFound paths.old.paths.entries watches.old }
    ensures found { AreFound paths.new.paths.entries watches.new }
    ensures gone { watches.new ≡ without_meant watches.old connection type_of path.now }
{
    remove_each(watches, connection, type_of, path.names());
    tidy(watches, paths, path, connection);
}

// Removes the watches of a connection, by its paths.
pub(crate) fn remove_all(watches: &mut Counted, paths: &mut ByConnection, connection: u32)
    requires { AreFound paths.old.paths.entries watches.old }
    ensures found { AreFound paths.new.paths.entries watches.new }
    ensures gone { watches.new ≡ without watches.old connection }
{
    let Some(mut left) = paths.take(connection) else {
        return;
    };
    while let Some(path) = left.pop_first() {
        remove_each(watches, connection, WatchType::Any, path.names());
    }
    watches.forget(connection);
}
