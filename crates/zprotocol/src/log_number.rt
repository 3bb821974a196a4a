//! The number of a log entry.

ghost use Rattle.std.specs.Prelude.{◌≡◌, ◌<◌, ◌≤◌, IfNone, IfSome};

use crate::limits::MAX_LOG_NUMBER;
use std::marker::Model;

/// The number of an entry in a server's log, from 1 on; 0 is before the first. It is below 2^62.
#[derive(Clone, Copy, Debug, PartialEq, Eq)]
pub struct LogNumber {
    number: u64,
}

impl Model for LogNumber {
    ghost use Rattle.std.specs.Prelude.{ℕ, ◌≤◌};
    ghost use Rattle.zprotocol.specs.declared.limits.TheConstants.{MAX_LOG_NUMBER};

    ghost Value = { ℕ };

    ghost view = { λ n. n.number };

    ghost invariant = { λ n. n.number ≤ MAX_LOG_NUMBER };

    ghost inverse = { λ n. record { number = n } };
}

impl LogNumber {
    /// Returns the log number with this value, or `None` above `MAX_LOG_NUMBER`.
    pub fn new(number: u64) -> Option<LogNumber>
        ensures same { IfSome result (λ n. (n ≡ number) × (number ≤ MAX_LOG_NUMBER)) }
        ensures none { IfNone result (MAX_LOG_NUMBER < number) }
    {
        if number <= MAX_LOG_NUMBER {
            Some(LogNumber { number })
        } else {
            None
        }
    }

    /// Returns its value.
    pub fn number(self) -> u64
        ensures same { result ≡ self }
        ensures small { result ≤ MAX_LOG_NUMBER }
    {
        self.number
    }
}
