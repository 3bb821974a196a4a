//! Items that can be in lists.

use crate::id::Id;

/// An item's neighbours in one list.
#[derive(Clone, Copy, Debug, PartialEq, Eq)]
pub struct Links {
    /// The next item, or `None` for the last one.
    pub next: Option<Id>,
    /// The previous item, or `None` for the first one.
    pub prev: Option<Id>,
}

/// An item with a next and a previous Id in list `L`.
///
/// Writing the links of `L` changes nothing else. An implementation's `with_links` is a record
/// update, and `set_links` writes exactly that.
pub trait Linked<const L: usize> {
    ghost use Rattle.std.specs.Prelude.{◌≡◌};
    ghost use Rattle.zslots.specs.declared.linked.Links.{Links};

    ghost links: { Self → Links };

    ghost with_links: { Self → Links → Self };

    /// Returns the links of list `L`.
    fn links(&self) -> Links
        ensures { result ≡ links self.now };

    /// Writes the links of list `L`.
    fn set_links(&mut self, to: Links)
        ensures { self.new ≡ with_links self.old to };

    // reading gives what was written
    ghost reads: { (x : Self) (to : Links) → links (with_links x to) ≡ to };

    // writing what was read changes nothing
    ghost same: { (x : Self) → with_links x (links x) ≡ x };

    // the second of two writes wins
    ghost twice: { (x : Self) (one two : Links) →
        with_links (with_links x one) two ≡ with_links x two };
}
