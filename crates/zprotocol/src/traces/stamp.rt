//! Lamport timestamps.

ghost use Rattle.std.specs.Prelude.{◌≡◌, ◌+◌, ◌<◌, ◌^◌, ◌≤◌, IfNone, IfSome, max};
ghost use Rattle.zprotocol.specs.declared.traces.stamp.TheConstants.{MAX_STAMP};

use std::marker::Model;

/// The last timestamp: a trace that reaches it is cut.
pub const MAX_STAMP: u64 = (1 << 62) - 1;

/// The limit is this number.
pub fn limits_are_numbers()
    ensures last { MAX_STAMP + 1 ≡ 2 ^ 62 }
{}

/// A Lamport timestamp, below 2^62. An event's timestamp is above that of the event before it in
/// its process, and above that of the message that was received.
#[derive(Clone, Copy, Debug, PartialEq, Eq)]
pub struct Stamp {
    number: u64,
}

impl Model for Stamp {
    ghost use Rattle.std.specs.Prelude.{ℕ, ◌≤◌};
    ghost use Rattle.zprotocol.specs.declared.traces.stamp.TheConstants.{MAX_STAMP};

    ghost Value = { ℕ };

    ghost view = { λ s. s.number };

    ghost invariant = { λ s. s.number ≤ MAX_STAMP };

    ghost inverse = { λ n. record { number = n } };
}

impl Stamp {
    ghost use Rattle.zprotocol.specs.traces.Stamps.{next_stamp};

    /// Returns the timestamp of a process that has done nothing.
    pub fn zero() -> Stamp
        ensures { result ≡ 0 }
    {
        Stamp { number: 0 }
    }

    /// Returns the timestamp with that number. None from 2^62 on.
    pub fn new(number: u64) -> Option<Stamp>
        ensures same { IfSome result (λ s. (s ≡ number) × (number ≤ MAX_STAMP)) }
        ensures none { IfNone result (MAX_STAMP < number) }
    {
        if number <= MAX_STAMP {
            Some(Stamp { number })
        } else {
            None
        }
    }

    /// Returns its number.
    pub fn number(self) -> u64
        ensures same { result ≡ self }
        ensures small { result ≤ MAX_STAMP }
    {
        self.number
    }

    /// Returns the later of the two.
    pub fn later(self, other: Stamp) -> Stamp
        ensures { result ≡ max self other }
    {
        if self.number < other.number {
            other
        } else {
            self
        }
    }

    /// Returns the next timestamp, or itself if it is the last one.
    pub fn next(self) -> Stamp
        ensures { result ≡ next_stamp self }
    {
        if self.number < MAX_STAMP {
            Stamp {
                number: self.number + 1,
            }
        } else {
            self
        }
    }
}
