//! The items by Id.

ghost use Rattle.std.specs.Prelude.{◌≡◌, ◌+◌, ◌<◌, ◌≤◌, Some, IfOk, IfErr, OnOk, OnErr, OnSome, IfNone, IsOk, option_copied};
ghost use Rattle.std.specs.Option.{option_copied_mut};
ghost use Rattle.std.specs.Borrow.{sem};
ghost use Rattle.std.specs.FinMap as finite;
ghost use Rattle.zslots.specs.declared.limits.TheConstants.{GIVEN_BOUND, MAX_LENGTH};

use crate::generation::Generation;
use crate::id::Id;
use crate::limits::MAX_SLOTS;
use slab::Slab;
use std::alloc::Global;
use std::marker::Model;
use zalloc::Memory;

/// An item with the generation of its Id.
#[derive(Drop)]
pub(crate) struct Slot<T> {
    pub(crate) generation: Generation,
    pub(crate) item: T,
}

/// Items by Id; an Id is never given out twice.
///
/// A generation is the number of Ids that were given out before it. So the Id of a removed item
/// names nothing from then on, whatever item uses its slot.
#[derive(Drop)]
pub struct Slots<T> {
    pub(crate) slab: Slab<Slot<T>>,
    pub(crate) given: u128,
}

impl<T> Model for Slots<T> {
    ghost use Rattle.zslots.specs.SlotsView.{SlotsView, coded_view};

    ghost Value = { SlotsView T };

    ghost coded = { coded_view T.code };

    ghost use Rattle.zslots.specs.Fields.{view_of, HasGivenSlots};

    ghost view = { view_of };

    ghost invariant = { λ s. HasGivenSlots s.slab.slots s.given };
}

impl<T> Slots<T> {
    ghost use Rattle.zslots.specs.SlotsView.{empty_slots, IsNew, HasIndexes, NamesGivenIds};
    ghost use Rattle.zslots.specs.Lends.{lends_get};

    /// Returns an empty `Slots` that has given out no Id. Allocates nothing.
    pub fn new(alloc: Global) -> Slots<T>
        ensures { result ≡ empty_slots }
    {
        Slots {
            slab: Slab::new(alloc),
            given: 0,
        }
    }

    /// Returns the number of Ids given out so far.
    pub fn given(&self) -> u128
        ensures given { result ≡ self.now.given }
        ensures known { NamesGivenIds self.now }
    {
        self.given
    }

    /// Returns the number of items.
    pub fn len(&self) -> usize
        ensures { result ≡ finite.len self.now.items }
    {
        self.slab.len()
    }

    /// An invariant of every `Slots`: it has at most `MAX_LENGTH` items. So a list without one of
    /// them can grow. The function does nothing.
    pub fn keeps_countable(&self)
        ensures { finite.len self.now.items ≤ MAX_LENGTH }
    {
        let _ = self.len();
    }

    /// Reserves room, so that the next `more` inserts don't allocate.
    pub fn reserve(&mut self, more: usize) -> Result<(), Memory>
        ensures room { OnOk result (more ≤ self.new.room) }
        ensures rest { self.new ≡ record self.old { room = self.new.room } }
        ensures kept { self.old.room ≤ self.new.room }
    {
        self.slab.reserve(more)?;
        Ok(())
    }

    /// Inserts an item and returns its new Id. Returns the item as the error for out of memory, or
    /// if there are already `MAX_SLOTS` slots.
    pub fn insert(&mut self, item: T) -> Result<Id, T>
        requires { self.old.given < GIVEN_BOUND }
        ensures new { IfOk result (IsNew self.old) }
        ensures items { IfOk result (λ id. self.new.items ≡ finite.insert self.old.items id item) }
        ensures given { OnOk result (self.new.given ≡ self.old.given + 1) }
        ensures room { OnOk result (self.old.room ≤ self.new.room + 1) }
        ensures had_room { 0 < self.old.room → OnOk result (self.new.room + 1 ≡ self.old.room) }
        // It fails only without room or without an index, and then only the room may change.
        ensures succeeds { 0 < self.old.room → HasIndexes self.old → IsOk result }
        ensures back { IfErr result (λ same. same ≡ item) }
        ensures err { OnErr result (self.new ≡ record self.old { room = self.new.room }) }
    {
        let generation = Generation::new(self.given as u64);
        let index = match self.slab.insert(Slot { generation, item }) {
            Ok(index) => index,
            Err(failed) => return Err(failed.value.item),
        };
        if index >= MAX_SLOTS {
            return Err(self.slab.remove(index).item);
        }
        self.given += 1;
        Ok(Id {
            index: index as u32,
            generation,
        })
    }

    /// Returns the item with this Id, if it exists.
    pub fn get(&self, id: Id) -> Option<&T>
        ensures { option_copied result ≡ finite.get self.now.items id }
    {
        match self.slab.get(id.index as usize) {
            Some(slot) if slot.generation.is(id.generation) => Some(&slot.item),
            _ => None,
        }
    }

    /// Returns the item with this Id for writing, if it exists.
    pub fn get_mut(&mut self, id: Id) -> Option<&mut T>
        ensures* writes_back { sem 𝓛 (lends_get T.row self.entry id result) }
        ensures value { option_copied_mut result ≡ finite.get self.old.items id }
    {
        if self.get(id).is_none() {
            return None;
        }
        let slot = &mut self.slab[id.index as usize];
        Some(&mut slot.item)
    }

    /// Removes and returns the item with this Id, if it exists. The Id names nothing from then on.
    pub fn remove(&mut self, id: Id) -> Option<T>
        ensures item { result ≡ finite.get self.old.items id }
        ensures items { self.new.items ≡ finite.remove self.old.items id }
        ensures given { self.new.given ≡ self.old.given }
        ensures room { OnSome result (self.new.room ≡ self.old.room + 1) }
        ensures absent { IfNone result (self.new ≡ self.old) }
    {
        self.get(id)?;
        Some(self.slab.remove(id.index as usize).item)
    }
}
