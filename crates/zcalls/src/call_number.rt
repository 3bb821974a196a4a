//! The number of a client's call.

ghost use Rattle.std.specs.Prelude.{◌≡◌, ◌<◌, ◌≤◌, IfNone, IfSome};

use crate::limits::MAX_CALL_NUMBER;
use std::marker::Model;

/// The number of a client's call: 1 for the first, then one more each time. It is below 2^62.
#[derive(Clone, Copy, Debug, PartialEq, Eq)]
pub struct CallNumber {
    number: u64,
}

impl Model for CallNumber {
    ghost use Rattle.std.specs.Prelude.{ℕ, ◌≤◌};
    ghost use Rattle.zcalls.specs.declared.limits.TheConstants.{MAX_CALL_NUMBER};

    ghost Value = { ℕ };

    ghost view = { λ n. n.number };

    ghost invariant = { λ n. n.number ≤ MAX_CALL_NUMBER };

    ghost inverse = { λ n. record { number = n } };
}

impl CallNumber {
    /// Returns the call number with this value, or `None` from 2^62 on.
    pub fn new(number: u64) -> Option<CallNumber>
        ensures same { IfSome result (λ n. (n ≡ number) × (number ≤ MAX_CALL_NUMBER)) }
        ensures none { IfNone result (MAX_CALL_NUMBER < number) }
    {
        if number <= MAX_CALL_NUMBER {
            Some(CallNumber { number })
        } else {
            None
        }
    }

    /// Returns 0, the number before the first call.
    pub fn before_all() -> CallNumber
        ensures { result ≡ 0 }
    {
        CallNumber { number: 0 }
    }

    /// Returns its value.
    pub fn number(self) -> u64
        ensures same { result ≡ self }
        ensures small { result ≤ MAX_CALL_NUMBER }
    {
        self.number
    }
}
