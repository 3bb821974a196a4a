//! All connections, as the guard sees them.

ghost use Rattle.std.specs.Prelude.{◌≡◌, OnErr, OnOk};
ghost use Rattle.std.specs.FinMap as finite;
ghost use Rattle.zguard.specs.Guarding.{bytes_at, new_visitor, standing_at, with_visitor, without_bytes};

use crate::visitor::{Standing, Visitor};
use std::alloc::Global;
use std::collections::BTreeMap;
use std::marker::Model;
use std::mem;
use zalloc::Memory;

/// A visitor under each connection's number.
#[derive(Drop)]
pub(crate) struct Visitors {
    alloc: Global,
    rows: BTreeMap<u32, Visitor>,
}

impl Model for Visitors {
    ghost use Rattle.std.specs.FinMap as finite;
    ghost use Rattle.zguard.specs.Guarding.{VisitorRows};
    ghost use Rattle.zguard.specs.support.Codes.{coded_rows};

    ghost Value = { VisitorRows };

    ghost coded = { coded_rows };

    ghost view = { λ v. finite.from_entries v.rows.entries };
}

impl Visitors {
    /// Returns an empty table. Allocates nothing.
    pub(crate) fn new(alloc: Global) -> Visitors
        ensures { result ≡ finite.empty }
    {
        Visitors {
            alloc,
            rows: BTreeMap::new(alloc),
        }
    }

    /// Returns the standing of a connection, if there is one.
    pub(crate) fn standing(&self, connection: u32) -> Option<Standing>
        ensures { result ≡ standing_at self.now connection }
    {
        let visitor = self.rows.get(&connection)?;
        Some(visitor.standing)
    }

    /// Adds a connection. Replaces the one with its number, if there is one. After `Memory` nothing
    /// has changed.
    pub(crate) fn open(&mut self, connection: u32) -> Result<(), Memory>
        ensures ok { OnOk result (self.new ≡ finite.insert self.old connection new_visitor) }
        ensures err { OnErr result (self.new ≡ self.old) }
    {
        let visitor = Visitor {
            standing: Standing::Silent,
            bytes: Vec::new(self.alloc),
        };
        drop(self.rows.insert(connection, visitor)?);
        Ok(())
    }

    /// Removes a connection, if there is one. Allocates nothing.
    pub(crate) fn end(&mut self, connection: u32)
        ensures { self.new ≡ finite.remove self.old connection }
    {
        drop(self.rows.remove(&connection));
    }

    /// Takes the bytes of a connection; none if there is no such one. Allocates nothing.
    pub(crate) fn take(&mut self, connection: u32) -> Vec<u8>
        ensures bytes { result.items ≡ bytes_at self.old connection }
        ensures rest { self.new ≡ without_bytes self.old connection }
    {
        let empty = Vec::new(self.alloc);
        let Some(visitor) = self.rows.get_mut(&connection) else {
            return empty;
        };
        mem::replace(&mut visitor.bytes, empty)
    }

    /// Sets the standing and the bytes of a connection, if there is one. Allocates nothing.
    pub(crate) fn set(&mut self, connection: u32, standing: Standing, bytes: Vec<u8>)
        ensures { self.new ≡ with_visitor self.old connection standing bytes.items }
    {
        let Some(visitor) = self.rows.get_mut(&connection) else {
            return;
        };
        visitor.standing = standing;
        drop(mem::replace(&mut visitor.bytes, bytes));
    }
}
