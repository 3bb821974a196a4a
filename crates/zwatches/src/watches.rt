//! The table of watches.

ghost use Rattle.std.specs.Prelude.{◌≡◌, true, false, IsOk, IfOk, OnOk, OnErr, IfErr};
ghost use Rattle.std.specs.FinSet as sets;
ghost use Rattle.std.specs.FinSet.{contains, insert, len};
ghost use Rattle.zwatches.specs.Watches.{watch, is_full, IsSetFault};
ghost use Rattle.zjute.specs.declared.event.EventKind.TheVariants.{NodeDeleted};
ghost use Rattle.zwatches.specs.Events.{is_awaited, reported, unfired, without, Lists};
ghost use Rattle.zwatches.specs.Removal.{has_meant, without_meant};

use crate::by_connection::ByConnection;
use crate::counted::Counted;
use crate::fault::WatchFault;
use crate::firing::{awaits_end, remove_fired, reported_of};
use crate::kind::Kind;
use crate::limits::WatchLimits;
use crate::removal::{has_meant, remove_all, remove_meant};
use crate::setting::set_in;
use std::alloc::Global;
use std::marker::Model;
use zalloc::Memory;
use zjute::{EventKind, WatchType};
use zpath::Path;

/// A set of watches.
#[derive(Drop)]
pub struct Watches {
    // By path, and counted.
    watches: Counted,
    // The paths of each connection.
    paths: ByConnection,
    alloc: Global,
}

impl Model for Watches {
    ghost use Rattle.zwatches.specs.Watches.{Watches as Table};
    ghost use Rattle.zwatches.specs.support.Codes.{coded_watches};
    ghost use Rattle.zwatches.specs.support.Nested.{AreFound};

    ghost Value = { Table };

    ghost coded = { coded_watches };

    ghost view = { λ table. table.watches };

    ghost invariant = { λ table. AreFound table.paths.paths.entries table.watches };
}

impl Watches {
    /// Returns an empty table. Allocates nothing.
    pub fn new(alloc: Global) -> Watches
        ensures { result ≡ sets.empty }
    {
        Watches {
            watches: Counted::new(alloc),
            paths: ByConnection::new(alloc),
            alloc,
        }
    }

    /// Returns the number of watches.
    pub fn count(&self) -> usize
        ensures { result ≡ len self.now }
    {
        self.watches.count()
    }

    /// Sets a watch, if the limits allow one more. Setting one again does nothing and allocates
    /// nothing. After a fault nothing has changed. Searches trees, and moves no other watches.
    pub fn set(
        &mut self,
        limits: WatchLimits,
        connection: u32,
        kind: Kind,
        path: &Path,
    ) -> Result<(), WatchFault>
        ensures ok { OnOk result
            (self.new ≡ insert self.old (watch path.now kind connection)) }
        ensures err { OnErr result (self.new ≡ self.old) }
        ensures room { OnOk result
            (is_full limits self.old (watch path.now kind connection) ≡ false) }
        ensures fault { IfErr result
            (IsSetFault (is_full limits self.old (watch path.now kind connection))) }
        ensures again { contains self.old (watch path.now kind connection) ≡ true → IsOk result }
    {
        set_in(
            &mut self.watches,
            &mut self.paths,
            limits,
            path,
            kind,
            connection,
        )
    }

    /// Fires the watches of an event at a path. Removes those that wait for one change. Returns the
    /// connections to notify, each once, in rising order. The parent's event is a separate call.
    /// After `Memory` nothing has changed. Searches the path and those above it, and takes time by
    /// the connections to notify.
    pub fn changed(&mut self, event: EventKind, path: &Path) -> Result<Vec<u32>, Memory>
        ensures reported { IfOk result (λ connections. Lists connections.items
            (reported self.old event path.now)) }
        ensures gone { OnOk result (self.new ≡ unfired self.old event path.now) }
        ensures err { OnErr result (self.new ≡ self.old) }
    {
        let connections = reported_of(self.alloc, &self.watches, event, path.names())?;
        remove_fired(
            &mut self.watches,
            &mut self.paths,
            &connections,
            event,
            path,
        );
        Ok(connections)
    }

    /// Returns whether a watch waits for the deletion of the node at a path.
    pub fn awaits_end(&self, path: &Path) -> bool
        ensures { result ≡ is_awaited self.now NodeDeleted path.now }
    {
        awaits_end(&self.watches, path.names())
    }

    /// Returns whether a connection has a watch of this type at a path.
    pub fn has(&self, connection: u32, type_of: WatchType, path: &Path) -> bool
        ensures { result ≡ has_meant self.now connection type_of path.now }
    {
        has_meant(&self.watches, connection, type_of, path.names())
    }

    /// Removes the watches of this type that a connection has at a path. Allocates nothing. Looks
    /// at no others.
    pub fn remove(&mut self, connection: u32, type_of: WatchType, path: &Path)
        ensures { self.new ≡ without_meant self.old connection type_of path.now }
    {
        remove_meant(
            &mut self.watches,
            &mut self.paths,
            connection,
            type_of,
            path,
        );
    }

    /// Removes all watches of a connection. Allocates nothing. Takes time by these watches, and
    /// looks at no others.
    pub fn forget(&mut self, connection: u32)
        ensures { self.new ≡ without self.old connection }
    {
        remove_all(&mut self.watches, &mut self.paths, connection);
    }
}
