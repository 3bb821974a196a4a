//! A number of entries.

ghost use Rattle.std.specs.Prelude.{◌≡◌, ◌+◌, ◌<◌, ◌≤◌, IfNone, IfSome};
ghost use Rattle.zmaster_log.specs.declared.limits.TheConstants.{MAX_ENTRIES};

use crate::limits::MAX_ENTRIES;
use std::marker::Model;

/// A number of entries of the log, up to `MAX_ENTRIES`. The index of an entry is the number of
/// entries before it.
#[derive(Clone, Copy, Debug, PartialEq, Eq)]
pub struct EntryCount {
    number: u64,
}

impl Model for EntryCount {
    ghost use Rattle.std.specs.Prelude.{ℕ, ◌≤◌};
    ghost use Rattle.zmaster_log.specs.declared.limits.TheConstants.{MAX_ENTRIES};

    ghost Value = { ℕ };

    ghost view = { λ n. n.number };

    ghost invariant = { λ n. n.number ≤ MAX_ENTRIES };

    ghost inverse = { λ n. record { number = n } };
}

impl EntryCount {
    /// Returns this number, or `None` above `MAX_ENTRIES`.
    pub fn new(number: u64) -> Option<EntryCount>
        ensures same { IfSome result (λ n. (n ≡ number) × (number ≤ MAX_ENTRIES)) }
        ensures none { IfNone result (MAX_ENTRIES < number) }
    {
        if number <= MAX_ENTRIES {
            Some(EntryCount { number })
        } else {
            None
        }
    }

    /// Returns 0: no entries.
    pub fn none() -> EntryCount
        ensures { result ≡ 0 }
    {
        EntryCount { number: 0 }
    }

    /// Returns its value.
    pub fn number(self) -> u64
        ensures same { result ≡ self }
        ensures small { result ≤ MAX_ENTRIES }
    {
        self.number
    }

    /// Returns one more, or `None` if this is `MAX_ENTRIES`.
    pub fn next(self) -> Option<EntryCount>
        ensures next { IfSome result (λ n. n ≡ self + 1) }
        ensures none { IfNone result (self ≡ MAX_ENTRIES) }
    {
        if self.number == MAX_ENTRIES {
            return None;
        }
        Some(EntryCount {
            number: self.number + 1,
        })
    }
}
