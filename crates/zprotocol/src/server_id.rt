//! The id of a server.

ghost use Rattle.std.specs.Prelude.{◌≡◌, ◌<◌, ◌≤◌, ◌⊎◌, IfNone, IfSome};

use crate::limits::MAX_SERVERS;
use std::marker::Model;

/// The id of a server: 1 to `MAX_SERVERS`.
#[derive(Clone, Copy, Debug, PartialEq, Eq)]
pub struct ServerId {
    number: u8,
}

impl Model for ServerId {
    ghost use Rattle.std.specs.Prelude.{ℕ, ◌<◌, ◌≤◌};
    ghost use Rattle.zprotocol.specs.declared.limits.TheConstants.{MAX_SERVERS};

    ghost Value = { ℕ };

    ghost view = { λ s. s.number };

    ghost invariant = { λ s. (0 < s.number) × (s.number ≤ MAX_SERVERS) };

    ghost inverse = { λ n. record { number = n } };
}

impl ServerId {
    /// Returns the server with this number, or `None` for 0 and above `MAX_SERVERS`.
    pub fn new(number: u8) -> Option<ServerId>
        ensures server { IfSome result (λ s. (s ≡ number) × (0 < number) × (number ≤ MAX_SERVERS)) }
        ensures none { IfNone result ((number ≡ 0) ⊎ (MAX_SERVERS < number)) }
    {
        if number == 0 || number > MAX_SERVERS {
            None
        } else {
            Some(ServerId { number })
        }
    }

    /// Returns server 1: the head of the initial chain.
    pub fn first() -> ServerId
        ensures { result ≡ 1 }
    {
        ServerId { number: 1 }
    }

    /// Returns its number: 1 to `MAX_SERVERS`.
    pub fn number(self) -> u8
        ensures same { result ≡ self }
        ensures some { 0 < result }
        ensures small { result ≤ MAX_SERVERS }
    {
        self.number
    }

    /// Every id is 1 to `MAX_SERVERS`. The function does nothing.
    pub fn keeps_in_range(self)
        ensures some { 0 < self }
        ensures few { self ≤ MAX_SERVERS }
    {
        let _ = self.number;
    }
}
