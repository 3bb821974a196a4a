//! How many watches each connection has.
//!
//! # Why
//!
//! The watches are sorted by path. To count those of a connection would take a look at each.

ghost use Rattle.std.specs.Prelude.{◌≡◌, ℕ, ◌+◌, ◌-◌, ◌<◌, ◌^◌, OnErr, OnOk};
ghost use Rattle.std.specs.FinMap as finite;
ghost use Rattle.zwatches.specs.support.Shares.{changed_by, counted};

use std::alloc::Global;
use std::collections::BTreeMap;
use std::marker::Model;
use zalloc::Memory;

// A number under each connection's. A connection without one has no watches.
#[derive(Drop)]
pub(crate) struct Shares {
    counts: BTreeMap<u32, usize>,
}

impl Model for Shares {
    ghost use Rattle.std.specs.FinMap as finite;
    ghost use Rattle.zwatches.specs.support.Shares.{Counts, coded_counts};

    ghost Value = { Counts };

    ghost coded = { coded_counts };

    ghost view = { λ s. finite.from_entries s.counts.entries };
}

impl Shares {
    // Returns no counts. Allocates nothing.
    pub(crate) fn new(alloc: Global) -> Shares
        ensures { result ≡ finite.empty }
    {
        Shares {
            counts: BTreeMap::new(alloc),
        }
    }

    // Returns how many watches a connection has.
    pub(crate) fn of(&self, connection: u32) -> usize
        ensures { result ≡ counted self.now connection }
    {
        self.counts.get(&connection).copied().unwrap_or(0)
    }

    // Counts one more watch of a connection. After `Memory` nothing has changed.
    pub(crate) fn raise(&mut self, connection: u32) -> Result<(), Memory>
        requires { counted self.old connection + 1 < 2 ^ 64 }
        ensures ok { OnOk result (self.new
            ≡ finite.insert self.old connection (counted self.old connection + 1)) }
        ensures err { OnErr result (self.new ≡ self.old) }
    {
        let count = self.of(connection) + 1;
        self.counts.insert(connection, count)?;
        Ok(())
    }

    // Counts this many watches of a connection less. Allocates nothing.
    pub(crate) fn lower(&mut self, connection: u32, gone: usize)
        ensures { self.new ≡ changed_by (λ count. count - gone) self.old connection }
    {
        if let Some(count) = self.counts.get_mut(&connection) {
            *count = count.saturating_sub(gone);
        }
    }

    // Removes the count of a connection. Allocates nothing.
    pub(crate) fn forget(&mut self, connection: u32)
        ensures { self.new ≡ finite.remove self.old connection }
    {
        self.counts.remove(&connection);
    }
}
