//! Reads and writes of an item's links, if the item exists.

ghost use Rattle.std.specs.Prelude.{◌≡◌};
ghost use Rattle.zslots.specs.Ids.{first_if as first_where};
ghost use Rattle.zslots.specs.Links.{links_at as item_links};
ghost use Rattle.zslots.specs.ListCalls.{slots_with_next, slots_with_prev};

use crate::id::Id;
use crate::linked::{Linked, Links};
use crate::slots::Slots;

// Returns an item's links.
pub(crate) fn links_at<const L: usize, T: Linked<L>>(slots: &Slots<T>, id: Id) -> Links
    ensures { result ≡ item_links T.links slots.now.items id }
{
    match slots.get(id) {
        Some(item) => item.links(),
        None => Links {
            next: None,
            prev: None,
        },
    }
}

// Writes an item's `next`.
pub(crate) fn set_next<const L: usize, T: Linked<L>>(
    slots: &mut Slots<T>,
    at: Option<Id>,
    next: Option<Id>,
)
    ensures { slots.new ≡ slots_with_next T.links T.with_links slots.old at next }
{
    if let Some(id) = at {
        if let Some(item) = slots.get_mut(id) {
            let prev = item.links().prev;
            item.set_links(Links { next, prev });
        }
    }
}

// Writes an item's `prev`.
pub(crate) fn set_prev<const L: usize, T: Linked<L>>(
    slots: &mut Slots<T>,
    at: Option<Id>,
    prev: Option<Id>,
)
    ensures { slots.new ≡ slots_with_prev T.links T.with_links slots.old at prev }
{
    if let Some(id) = at {
        if let Some(item) = slots.get_mut(id) {
            let next = item.links().next;
            item.set_links(Links { next, prev });
        }
    }
}

// Returns the new first Id of a list: unchanged if there is an item before, else the other one.
pub(crate) fn first_if(before: Option<Id>, first: Option<Id>, other: Option<Id>) -> Option<Id>
    ensures { result ≡ first_where before first other }
{
    match before {
        Some(_) => first,
        None => other,
    }
}
