//! Items that can be copied, and the copy of a `Slots` of them.

ghost use Rattle.std.specs.Prelude.{◌≡◌, IfOk};

use crate::slots::{Slot, Slots};
use std::alloc::AllocError;
use zalloc::Memory;

/// An item that can be copied.
pub trait Copied: Sized {
    /// Returns an equal item, or `Memory`.
    fn copied(&self) -> Result<Self, Memory>
        ensures { IfOk result (λ copy. copy ≡ self.now) };
}

// The copy of a slot is equal to it.
impl<T: Copied + Drop> Clone for Slot<T> {
    ghost is_clone = { λ slot copy. copy ≡ slot };

    fn clone(&self) -> Result<Self, AllocError> {
        match self.item.copied() {
            Ok(item) => Ok(Slot {
                generation: self.generation,
                item,
            }),
            Err(Memory) => Err(AllocError),
        }
    }
}

impl<T: Copied + Drop> Slots<T> {
    /// Returns a copy with the same items under the same Ids, and the same number of Ids given out;
    /// or `Memory`.
    pub fn copy(&self) -> Result<Slots<T>, Memory>
        ensures items { IfOk result (λ copy. copy.items ≡ self.now.items) }
        ensures given { IfOk result (λ copy. copy.given ≡ self.now.given) }
    {
        Ok(Slots {
            slab: self.slab.clone()?,
            given: self.given,
        })
    }
}
