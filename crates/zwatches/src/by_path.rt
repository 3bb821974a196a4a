//! The watches by path.
//!
//! # Why
//!
//! A key is a list of names and no path, since a slice of names finds such a key: so the watches
//! above a path are found without a copy of each path above it, which could fail.

ghost use Rattle.std.specs.Prelude.{◌≡◌, ℕ, ◌||◌, [], ◌∷◌, OnOk, OnErr, IfOk};
ghost use Rattle.std.specs.List.{filter, list_any};
ghost use Rattle.std.specs.FinSet.{contains, empty, insert, items, remove};
ghost use Rattle.zwatches.specs.Watches.{place};
ghost use Rattle.zwatches.specs.Events.{is_at};
ghost use Rattle.zwatches.specs.support.Groups.{AddsWaiting, among};
ghost use Rattle.zwatches.specs.support.Nested as table;
ghost use Rattle.zwatches.specs.support.Nested.{is_of, slot, slot_cmp, watch_at};
ghost use Rattle.std.specs.Ordering.{eq_by_cmp};

use crate::kind::Kind;
use crate::slot::Slot;
use std::alloc::Global;
use std::collections::btree_set::Range;
use std::collections::{BTreeMap, BTreeSet};
use std::marker::Model;
use std::ops::Bound;
use zalloc::Memory;
use zpath::Name;

// The slots at each path that has one, in order.
#[derive(Drop)]
pub(crate) struct ByPath {
    at: BTreeMap<Vec<Name>, BTreeSet<Slot>>,
    alloc: Global,
}

impl Model for ByPath {
    ghost use Rattle.std.specs.FinSet.{from_list};
    ghost use Rattle.std.specs.List.Sorted.{IsStrictlySortedBy};
    ghost use Rattle.std.specs.Map.{keys_of};
    ghost use Rattle.std.specs.Prelude.{map};
    ghost use Rattle.zpath.specs.Grammar.{path_cmp};
    ghost use Rattle.zwatches.specs.Watches.{Watches};
    ghost use Rattle.zwatches.specs.support.Codes.{coded_watches};
    ghost use Rattle.zwatches.specs.support.Nested.{held, watch_at};

    ghost Value = { Watches };

    ghost coded = { coded_watches };

    ghost view = { λ t. from_list
        (held t.at.entries (λ slots. slots.keys) (λ names s. watch_at names.items s)) };

    ghost invariant = { λ t. IsStrictlySortedBy (λ a b. path_cmp a.items b.items)
        (keys_of t.at.entries) };
}

impl ByPath {
    // Returns no watches. Allocates nothing.
    pub(crate) fn new(alloc: Global) -> ByPath
        ensures { result ≡ empty }
    {
        ByPath {
            at: BTreeMap::new(alloc),
            alloc,
        }
    }

    // Returns whether there is this watch.
    pub(crate) fn contains(&self, names: &[Name], slot: Slot) -> bool
        ensures { result ≡ contains self.now (watch_at names.now slot) }
    {
        match self.at.get(names) {
            Some(slots) => slots.contains(&slot),
            None => false,
        }
    }

    // Returns whether there is a watch at a position.
    pub(crate) fn has(&self, names: &[Name], kind: Kind) -> bool
        ensures { result ≡ list_any (is_at (place names.now kind)) (items self.now) }
    {
        match self.at.get(names) {
            Some(slots) => has_kind(slots, kind),
            None => false,
        }
    }

    // Adds the connections of the watches at a position.
    pub(crate) fn report(
        &self,
        reported: &mut Vec<u32>,
        names: &[Name],
        kind: Kind,
    ) -> Result<(), Memory>
        ensures { OnOk result (AddsWaiting self.now reported.old.items reported.new.items
            (place names.now kind ∷ [])) }
    {
        match self.at.get(names) {
            Some(slots) => report_kind(slots, reported, kind),
            None => Ok(()),
        }
    }

    // Adds a watch. After `Memory` nothing has changed.
    pub(crate) fn insert(&mut self, names: &[Name], slot: Slot) -> Result<(), Memory>
        ensures ok { OnOk result (self.new ≡ insert self.old (watch_at names.now slot)) }
        ensures err { OnErr result (self.new ≡ self.old) }
    {
        if let Some(slots) = self.at.get_mut(names) {
            slots.insert(slot)?;
            return Ok(());
        }
        let key = copied(self.alloc, names)?;
        let mut slots = BTreeSet::new(self.alloc);
        slots.insert(slot)?;
        self.at.insert(key, slots)?;
        Ok(())
    }

    // Removes a watch. Returns whether there was one. Allocates nothing.
    pub(crate) fn remove(&mut self, names: &[Name], slot: Slot) -> bool
        ensures was { result ≡ contains self.old (watch_at names.now slot) }
        ensures gone { self.new ≡ remove self.old (watch_at names.now slot) }
    {
        let Some(slots) = self.at.get_mut(names) else {
            return false;
        };
        let was = slots.remove(&slot);
        if slots.is_empty() {
            self.at.remove(names);
        }
        was
    }
}

// Returns a copy of names.
fn copied(alloc: Global, names: &[Name]) -> Result<Vec<Name>, Memory>
    ensures { IfOk result (λ copy. copy.items ≡ names.now) }
{
    let mut copy = Vec::with_capacity(alloc, names.len())?;
    for name in names {
        copy.push(name.clone()?)?;
    }
    Ok(copy)
}

// Returns where the slots of a kind end.
fn end_of(kind: Kind) -> Bound<Slot>
    ensures { result ≡ table.end_of kind }
{
    let kind = match kind {
        Kind::Data => Kind::Missing,
        Kind::Missing => Kind::Children,
        Kind::Children => Kind::EachData,
        Kind::EachData => Kind::EachChildren,
        Kind::EachChildren => Kind::Recursive,
        Kind::Recursive => return Bound::Unbounded,
    };
    Bound::Excluded(Slot {
        kind,
        connection: 0,
    })
}

// Returns the slots of a kind.
fn of_kind(slots: &BTreeSet<Slot>, kind: Kind) -> Range<'_, Slot>
    ensures { result ≡ filter (is_of kind) slots.now.keys }
{
    let first = Slot {
        kind,
        connection: 0,
    };
    slots.range((Bound::Included(first), end_of(kind)))
}

// Returns whether there is a slot of a kind.
fn has_kind(slots: &BTreeSet<Slot>, kind: Kind) -> bool
    ensures { result ≡ list_any (is_of kind) slots.now.keys }
{
    of_kind(slots, kind).next().is_some()
}

// Adds the connections of the slots of a kind.
fn report_kind(slots: &BTreeSet<Slot>, reported: &mut Vec<u32>, kind: Kind) -> Result<(), Memory>
    ensures { OnOk result ((q : ℕ) → among reported.new.items q
        ≡ (among reported.old.items q
        || list_any (eq_by_cmp slot_cmp (slot kind q)) slots.now.keys)) }
{
    for slot in of_kind(slots, kind) {
        reported.push(slot.connection)?;
    }
    Ok(())
}
