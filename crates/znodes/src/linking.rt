//! Inserting a row into its lists, and unlinking it.

ghost use Rattle.std.specs.Prelude.{◌≡◌, ◌<◌, true, None, IfSome};
ghost use Rattle.zslots.specs.declared.limits.TheConstants.{MAX_LENGTH};
ghost use Rattle.zslots.specs.SlotsView.{with_items};
ghost use Rattle.zslots.specs.Lists.{length_of};
ghost use Rattle.znodes.specs.support.OwnerLists.{list_of};
ghost use Rattle.znodes.specs.support.Linking.{with_key, kept_key, AtChildren, with_child, without_child, owners_with, owners_left, slots_with_owned, slots_without_owned};
ghost use Rattle.znodes.specs.support.Linking.{with_timed, timed_with, without_timed, timed_without};
ghost use Rattle.ztree.specs.Stale.{may_end};

use crate::owners::Owners;
use crate::row::Row;
use zpath::Path;
use zslots::{Id, List, Slots};
use ztree::Term;

// Inserts a row at the front of its parent's children.
pub(crate) fn put_child(slots: &mut Slots<Row>, parent: Option<Id>, id: Id)
    requires { AtChildren slots.old.items parent (λ list. length_of list < MAX_LENGTH) }
    ensures { slots.new ≡ with_items slots.old (with_child slots.old.items parent id) }
{
    let Some(parent) = parent else {
        return;
    };
    if let Some(row) = slots.get(parent) {
        let mut children = row.children;
        children.push_front(slots, id);
        if let Some(row) = slots.get_mut(parent) {
            row.children = children;
        }
    }
}

// Unlinks a row from its parent's children.
pub(crate) fn cut_child(slots: &mut Slots<Row>, parent: Option<Id>, id: Id)
    requires { AtChildren slots.old.items parent (λ list. 0 < length_of list) }
    ensures { slots.new ≡ with_items slots.old (without_child slots.old.items parent id) }
{
    let Some(parent) = parent else {
        return;
    };
    if let Some(row) = slots.get(parent) {
        let mut children = row.children;
        children.unlink(slots, id);
        if let Some(row) = slots.get_mut(parent) {
            row.children = children;
        }
    }
}

// Inserts a row at the front of its owner's list.
pub(crate) fn put_owned(slots: &mut Slots<Row>, owners: &mut Owners, owner: u64, id: Id)
    requires { IfSome (list_of owners.old owner) (λ list. length_of list < MAX_LENGTH) }
    ensures rows { slots.new ≡ slots_with_owned slots.old owners.old owner id }
    ensures owners { owners.new ≡ owners_with owners.old owner (list_of owners.old owner) id }
{
    if let Some(mut list) = owners.list(owner) {
        list.push_front(slots, id);
        owners.set(owner, list);
    }
}

// Unlinks a row from its owner's list.
pub(crate) fn cut_owned(slots: &mut Slots<Row>, owners: &mut Owners, owner: u64, id: Id)
    requires { IfSome (list_of owners.old owner) (λ list. 0 < length_of list) }
    ensures rows { slots.new ≡ slots_without_owned slots.old owners.old owner id }
    ensures owners { owners.new ≡ owners_left slots.old.items owners.old owner id }
{
    if let Some(mut list) = owners.list(owner) {
        list.unlink(slots, id);
        owners.set(owner, list);
    }
}

// Inserts a row at the front of the list of nodes that ticks may remove, if its node has such a
// term.
pub(crate) fn put_timed(slots: &mut Slots<Row>, timed: &mut List<2>, term: Term, id: Id)
    requires { length_of timed.old < MAX_LENGTH }
    ensures rows { slots.new
        ≡ with_items slots.old (with_timed slots.old.items timed.old (may_end term) id) }
    ensures timed { timed.new ≡ timed_with timed.old (may_end term) id }
{
    if term.may_end() {
        timed.push_front(slots, id);
    }
}

// Unlinks a row from the list of nodes that ticks may remove, if its node has such a term.
pub(crate) fn cut_timed(slots: &mut Slots<Row>, timed: &mut List<2>, term: Term, id: Id)
    requires { may_end term ≡ true → 0 < length_of timed.old }
    ensures rows { slots.new
        ≡ with_items slots.old (without_timed slots.old.items (may_end term) id) }
    ensures timed { timed.new ≡ timed_without slots.old.items timed.old (may_end term) id }
{
    if term.may_end() {
        timed.unlink(slots, id);
    }
}

// Writes the index key that a row stores.
pub(crate) fn set_key(slots: &mut Slots<Row>, id: Id, key: Option<Path>)
    ensures { slots.new ≡ with_items slots.old (with_key slots.old.items id key) }
{
    if let Some(row) = slots.get_mut(id) {
        row.key = key;
    }
}

// Takes the index key that a row stores.
pub(crate) fn take_key(slots: &mut Slots<Row>, id: Id) -> Option<Path>
    ensures key { result ≡ kept_key slots.old.items id }
    ensures rows { slots.new ≡ with_items slots.old (with_key slots.old.items id None) }
{
    match slots.get_mut(id) {
        Some(row) => row.key.take(),
        None => None,
    }
}
