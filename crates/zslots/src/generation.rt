//! The number that distinguishes the Ids that share a slot.

ghost use Rattle.std.specs.Prelude.{◌≡◌};
ghost use Rattle.zslots.specs.Generations.{generation_number, is_same};

/// The number of Ids that were given out before this one.
///
/// It is stored in two halves, since a type that holds a `u64` has a size that is a multiple of 8.
/// With the halves an Id takes 12 bytes, and an `Option<Id>` 16.
#[derive(Clone, Copy, Debug, PartialEq, Eq)]
pub struct Generation {
    high: u32,
    low: u32,
}

const HALF: u64 = 1 << 32;

impl Generation {
    /// Returns the generation with this number.
    pub(crate) fn new(number: u64) -> Generation
        ensures { generation_number result ≡ number }
    {
        Generation {
            high: (number / HALF) as u32,
            low: (number % HALF) as u32,
        }
    }

    /// Returns whether the two generations are equal.
    pub(crate) fn is(self, other: Generation) -> bool
        ensures { result ≡ is_same self other }
    {
        self.high == other.high && self.low == other.low
    }
}
