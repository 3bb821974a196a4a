//! Watches.

ghost use Rattle.std.specs.Prelude.{◌≡◌, true, false, IfErr, IsOk, OnErr, OnOk};
ghost use Rattle.std.specs.FinSet.{contains, insert};
ghost use Rattle.zjute.specs.declared.event.EventKind.TheVariants.{NodeDeleted};
ghost use Rattle.zwatches.specs.Events.{is_awaited};
ghost use Rattle.zwatches.specs.Removal.{has_meant, without_meant};
ghost use Rattle.zwatches.specs.Watches.{watch, is_full, IsSetFault};

use crate::tables::Tables;
use zjute::WatchType;
use zpath::Path;
use zwatches::{Kind, WatchFault};

impl Tables {
    /// Sets a watch, if the limits allow one more. Setting one again does nothing and allocates
    /// nothing. After a fault nothing has changed.
    pub fn watch(&mut self, connection: u32, kind: Kind, path: &Path) -> Result<(), WatchFault>
        ensures ok { OnOk result (self.new ≡ record self.old {
          watches = insert self.old.watches (watch path.now kind connection);
        }) }
        ensures err { OnErr result (self.new ≡ self.old) }
        ensures room { OnOk result
            (is_full self.old.limits self.old.watches (watch path.now kind connection) ≡ false) }
        ensures fault { IfErr result
            (IsSetFault (is_full self.old.limits self.old.watches (watch path.now kind connection))) }
        ensures again { contains self.old.watches (watch path.now kind connection) ≡ true
            → IsOk result }
    {
        self.watches.set(self.limits, connection, kind, path)
    }

    /// Returns whether a watch waits for the deletion of the node at a path.
    pub fn awaits_end(&self, path: &Path) -> bool
        ensures { result ≡ is_awaited self.now.watches NodeDeleted path.now }
    {
        self.watches.awaits_end(path)
    }

    /// Returns whether a connection has a watch of this type at a path.
    pub fn has_watch(&self, connection: u32, type_of: WatchType, path: &Path) -> bool
        ensures { result ≡ has_meant self.now.watches connection type_of path.now }
    {
        self.watches.has(connection, type_of, path)
    }

    /// Removes the watches of this type that a connection has at a path. Allocates nothing.
    pub fn unwatch(&mut self, connection: u32, type_of: WatchType, path: &Path)
        ensures { self.new ≡ record self.old {
          watches = without_meant self.old.watches connection type_of path.now;
        } }
    {
        self.watches.remove(connection, type_of, path);
    }
}
