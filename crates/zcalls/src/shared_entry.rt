//! A log entry with shared ownership.

ghost use Rattle.std.specs.Prelude.{◌≡◌, IfOk};

use crate::call::Entry;
use std::alloc::{AllocError, Global};
use std::marker::Model;
use std::sync::Arc;
use zalloc::Memory;

/// A shared log entry. A server that stores, applies and forwards an entry holds it once, and so
/// does the chain.
#[derive(Drop)]
pub struct SharedEntry {
    entry: Arc<Entry>,
}

impl Model for SharedEntry {
    ghost use Rattle.std.specs.Arc.{arc_value};
    ghost use Rattle.zcalls.specs.declared.call.Entry.{Entry};

    ghost Value = { Entry };

    ghost view = { λ shared. arc_value shared.entry };
}

impl SharedEntry {
    /// Makes the first owner of an entry, or returns `Memory`.
    pub fn new(alloc: Global, entry: Entry) -> Result<SharedEntry, Memory>
        ensures { IfOk result (λ shared. shared ≡ entry) }
    {
        Ok(SharedEntry {
            entry: Arc::new(alloc, entry)?,
        })
    }

    /// Returns the entry.
    pub fn entry(&self) -> &Entry
        ensures { result.now ≡ self.now }
    {
        &self.entry
    }
}

impl Clone for SharedEntry {
    ghost is_clone = { λ shared copy. copy ≡ shared };

    /// Returns a copy that shares the entry.
    fn clone(&self) -> Result<Self, AllocError> {
        Ok(SharedEntry {
            entry: Arc::try_clone(&self.entry)?,
        })
    }
}
