//! The watches, and how many there are.

ghost use Rattle.std.specs.Prelude.{◌≡◌, ◌+◌, ◌<◌, ◌^◌, [], ◌∷◌, OnOk, OnErr, false};
ghost use Rattle.std.specs.List.{list_any};
ghost use Rattle.std.specs.FinSet.{contains, empty, insert, items, len, remove};
ghost use Rattle.zwatches.specs.Watches.{place, share};
ghost use Rattle.zwatches.specs.Events.{is_at};
ghost use Rattle.zwatches.specs.support.Groups.{AddsWaiting};
ghost use Rattle.zwatches.specs.support.Nested.{watch_at};

use crate::by_path::ByPath;
use crate::kind::Kind;
use crate::shares::Shares;
use crate::slot::Slot;
use std::alloc::Global;
use std::marker::Model;
use zalloc::Memory;
use zpath::Name;

// The watches by path. How many there are is counted, and how many of each connection.
#[derive(Drop)]
pub(crate) struct Counted {
    watches: ByPath,
    shares: Shares,
    count: usize,
}

impl Model for Counted {
    ghost use Rattle.std.specs.FinSet.{len};
    ghost use Rattle.std.specs.Prelude.{◌≡◌};
    ghost use Rattle.zwatches.specs.Watches.{Watches};
    ghost use Rattle.zwatches.specs.support.Codes.{coded_watches};
    ghost use Rattle.zwatches.specs.support.Shares.{AreCounted};

    ghost Value = { Watches };

    ghost coded = { coded_watches };

    ghost view = { λ t. t.watches };

    ghost invariant = { λ t. AreCounted t.shares t.watches × (t.count ≡ len t.watches) };
}

impl Counted {
    // Returns no watches. Allocates nothing.
    pub(crate) fn new(alloc: Global) -> Counted
        ensures { result ≡ empty }
    {
        Counted {
            watches: ByPath::new(alloc),
            shares: Shares::new(alloc),
            count: 0,
        }
    }

    // Returns the number of watches.
    pub(crate) fn count(&self) -> usize
        ensures { result ≡ len self.now }
    {
        self.count
    }

    // Returns how many watches a connection has.
    pub(crate) fn share(&self, connection: u32) -> usize
        ensures { result ≡ share self.now connection }
    {
        self.shares.of(connection)
    }

    // Returns whether there is this watch.
    pub(crate) fn contains(&self, names: &[Name], slot: Slot) -> bool
        ensures { result ≡ contains self.now (watch_at names.now slot) }
    {
        self.watches.contains(names, slot)
    }

    // Returns whether there is a watch at a position.
    pub(crate) fn has(&self, names: &[Name], kind: Kind) -> bool
        ensures { result ≡ list_any (is_at (place names.now kind)) (items self.now) }
    {
        self.watches.has(names, kind)
    }

    // Adds the connections of the watches at a position.
    pub(crate) fn report(
        &self,
        reported: &mut Vec<u32>,
        names: &[Name],
        kind: Kind,
    ) -> Result<(), Memory>
        ensures { OnOk result (AddsWaiting self.now reported.old.items reported.new.items
            (place names.now kind ∷ [])) }
    {
        self.watches.report(reported, names, kind)
    }

    // Adds a watch that isn't there. After `Memory` nothing has changed.
    pub(crate) fn insert(&mut self, names: &[Name], slot: Slot) -> Result<(), Memory>
        requires absent { contains self.old (watch_at names.now slot) ≡ false }
        requires room { len self.old + 1 < 2 ^ 64 }
        ensures ok { OnOk result (self.new ≡ insert self.old (watch_at names.now slot)) }
        ensures err { OnErr result (self.new ≡ self.old) }
    {
        self.shares.raise(slot.connection)?;
        match self.watches.insert(names, slot) {
            Ok(()) => {
                self.count += 1;
                Ok(())
            }
            Err(fault) => {
                self.shares.lower(slot.connection, 1);
                Err(fault)
            }
        }
    }

    // Removes a watch. Returns whether there was one. Allocates nothing.
    pub(crate) fn remove(&mut self, names: &[Name], slot: Slot) -> bool
        ensures was { result ≡ contains self.old (watch_at names.now slot) }
        ensures gone { self.new ≡ remove self.old (watch_at names.now slot) }
    {
        let was = self.watches.remove(names, slot);
        if was {
            self.shares.lower(slot.connection, 1);
            self.count -= 1;
        }
        was
    }

    // Drops the count of a connection that has no watches.
    pub(crate) fn forget(&mut self, connection: u32)
        requires { share self.old connection ≡ 0 }
        ensures { self.new ≡ self.old }
    {
        self.shares.forget(connection);
    }
}
