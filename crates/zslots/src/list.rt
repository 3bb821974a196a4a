//! Intrusive lists: the links are in the items.

ghost use Rattle.std.specs.Prelude.{◌≡◌, ◌<◌};
ghost use Rattle.zslots.specs.declared.limits.TheConstants.{MAX_LENGTH};
ghost use Rattle.zslots.specs.Links.{links_at as item_links};

use crate::id::Id;
use crate::linked::{Linked, Links};
use crate::neighbours::{first_if, links_at, set_next, set_prev};
use crate::slots::Slots;

/// An intrusive list, by the items' links of list `L`. No call allocates.
///
/// The first clauses of each call say what it writes, whatever the links are. The clause `list`
/// says what that means for a well-formed list.
#[derive(Clone, Copy, Debug, PartialEq, Eq)]
pub struct List<const L: usize> {
    pub(crate) first: Option<Id>,
    pub(crate) len: usize,
}

impl<const L: usize> List<L> {
    ghost use Rattle.zslots.specs.Lists.{first_id, length_of, empty_list};
    ghost use Rattle.zslots.specs.Lists.{list_with_front, list_without, list_with_between};
    ghost use Rattle.zslots.specs.ListCalls.{slots_with_front, slots_without, slots_with_between};
    ghost use Rattle.zslots.specs.ListCalls.{PutsFirst, TakesOut, PutsBack, IsNext};

    /// Returns an empty list.
    pub fn new() -> List<L>
        ensures { result ≡ empty_list }
    {
        List {
            first: None,
            len: 0,
        }
    }

    /// Returns the first item's Id, or `None` for an empty list.
    pub fn first(&self) -> Option<Id>
        ensures { result ≡ first_id self.now }
    {
        self.first
    }

    /// Returns the length.
    pub fn len(&self) -> usize
        ensures { result ≡ length_of self.now }
    {
        self.len
    }

    /// Inserts an item at the front. The item must exist, and be in no list `L`.
    pub fn push_front<T: Linked<L>>(&mut self, slots: &mut Slots<T>, id: Id)
        requires { length_of self.old < MAX_LENGTH }
        ensures items { slots.new ≡ slots_with_front T.links T.with_links slots.old self.old id }
        ensures own { self.new ≡ list_with_front self.old id }
        ensures list { PutsFirst T.links slots.old.items self.old id slots.new.items self.new }
    {
        set_prev::<L, T>(slots, self.first, Some(id));
        if let Some(item) = slots.get_mut(id) {
            item.set_links(Links {
                next: self.first,
                prev: None,
            });
        }
        self.first = Some(id);
        self.len += 1;
    }

    /// Unlinks an item of the list. Its own links stay as they are.
    pub fn unlink<T: Linked<L>>(&mut self, slots: &mut Slots<T>, id: Id)
        requires { 0 < length_of self.old }
        ensures items { slots.new ≡ slots_without T.links T.with_links slots.old id }
        ensures own { self.new ≡ list_without T.links slots.old.items self.old id }
        ensures list { TakesOut T.links slots.old.items self.old id slots.new.items self.new }
    {
        let links = links_at::<L, T>(slots, id);
        set_next::<L, T>(slots, links.prev, links.next);
        set_prev::<L, T>(slots, links.next, links.prev);
        self.first = first_if(links.prev, self.first, links.next);
        self.len -= 1;
    }

    /// Reinserts an item that is in no list `L`, between the neighbours, or ends, that its own
    /// links name. Undoes `unlink`.
    pub fn relink<T: Linked<L>>(&mut self, slots: &mut Slots<T>, id: Id)
        requires { length_of self.old < MAX_LENGTH }
        ensures items { slots.new ≡ slots_with_between T.links T.with_links slots.old id }
        ensures own { self.new ≡ list_with_between T.links slots.old.items self.old id }
        ensures list { PutsBack T.links slots.old.items self.old id slots.new.items self.new }
    {
        let links = links_at::<L, T>(slots, id);
        set_next::<L, T>(slots, links.prev, Some(id));
        set_prev::<L, T>(slots, links.next, Some(id));
        self.first = first_if(links.prev, self.first, Some(id));
        self.len += 1;
    }

    /// Returns the Id that follows an item of the list, or `None` at its end.
    pub fn next<T: Linked<L>>(&self, slots: &Slots<T>, id: Id) -> Option<Id>
        ensures own { result ≡ (item_links T.links slots.now.items id).next }
        ensures list { IsNext T.links slots.now.items self.now id result }
    {
        links_at::<L, T>(slots, id).next
    }
}
