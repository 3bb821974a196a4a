//! The id of a client.

ghost use Rattle.std.specs.Prelude.{◌≡◌, ◌<◌, ◌≤◌, IfNone, IfSome};
ghost use Rattle.ztree.specs.declared.limits.TheConstants.{MAX_CLIENTS};

use crate::limits::MAX_CLIENTS;
use std::marker::Model;

/// The id of one of the 32 clients of this project's profile: 0 to 31.
#[derive(Clone, Copy, Debug, PartialEq, Eq)]
pub struct ClientId {
    number: u8,
}

impl Model for ClientId {
    ghost use Rattle.std.specs.Prelude.{ℕ, ◌<◌};
    ghost use Rattle.ztree.specs.declared.limits.TheConstants.{MAX_CLIENTS};

    ghost Value = { ℕ };

    ghost view = { λ c. c.number };

    ghost invariant = { λ c. c.number < MAX_CLIENTS };

    ghost inverse = { λ n. record { number = n } };
}

impl ClientId {
    /// Returns the client with this number, or `None` above 31.
    pub fn new(number: u8) -> Option<ClientId>
        ensures client { IfSome result (λ c. (c ≡ number) × (number < MAX_CLIENTS)) }
        ensures none { IfNone result (MAX_CLIENTS ≤ number) }
    {
        if number < MAX_CLIENTS {
            Some(ClientId { number })
        } else {
            None
        }
    }

    /// Returns its number: 0 to 31.
    pub fn number(self) -> u8
        ensures same { result ≡ self }
        ensures small { result < MAX_CLIENTS }
    {
        self.number
    }
}
