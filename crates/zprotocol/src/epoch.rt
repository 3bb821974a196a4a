//! The epoch of a pair of neighbours.

ghost use Rattle.std.specs.Prelude.{◌≡◌, ◌<◌, ◌≤◌, IfNone, IfSome};

use crate::limits::MAX_EPOCH;
use std::marker::Model;

/// The epoch of a pair of neighbours in the chain. The master gives each new pair a number above
/// all earlier ones. It is below 2^62.
#[derive(Clone, Copy, Debug, PartialEq, Eq)]
pub struct Epoch {
    number: u64,
}

impl Model for Epoch {
    ghost use Rattle.std.specs.Prelude.{ℕ, ◌≤◌};
    ghost use Rattle.zprotocol.specs.declared.limits.TheConstants.{MAX_EPOCH};

    ghost Value = { ℕ };

    ghost view = { λ n. n.number };

    ghost invariant = { λ n. n.number ≤ MAX_EPOCH };

    ghost inverse = { λ n. record { number = n } };
}

impl Epoch {
    /// Returns the epoch with this number, or `None` above `MAX_EPOCH`.
    pub fn new(number: u64) -> Option<Epoch>
        ensures same { IfSome result (λ n. (n ≡ number) × (number ≤ MAX_EPOCH)) }
        ensures none { IfNone result (MAX_EPOCH < number) }
    {
        if number <= MAX_EPOCH {
            Some(Epoch { number })
        } else {
            None
        }
    }

    /// Returns 0, the epoch of the initial chain.
    pub fn opening() -> Epoch
        ensures { result ≡ 0 }
    {
        Epoch { number: 0 }
    }

    /// Returns its number.
    pub fn number(self) -> u64
        ensures same { result ≡ self }
        ensures small { result ≤ MAX_EPOCH }
    {
        self.number
    }
}
