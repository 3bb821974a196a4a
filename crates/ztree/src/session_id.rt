//! The id of a session.
//!
//! # Why
//! The id is the zxid of the open. So no id is used twice, and a script can name the session by the
//! reply.

ghost use Rattle.std.specs.Prelude.{◌≡◌};

use crate::zxid::Zxid;
use std::marker::Model;

/// The id of a session: the zxid of the change that opened it.
#[derive(Clone, Copy, Debug, PartialEq, Eq, PartialOrd, Ord)]
pub struct SessionId {
    number: u64,
}

impl Model for SessionId {
    ghost use Rattle.std.specs.Prelude.{ℕ};

    ghost Value = { ℕ };

    ghost view = { λ id. id.number };

    ghost inverse = { λ n. record { number = n } };
}

impl SessionId {
    /// Returns the id with this number.
    pub fn new(number: u64) -> SessionId
        ensures { result ≡ number }
    {
        SessionId { number }
    }

    /// Returns the id of the session that this change opens.
    pub fn of(zxid: Zxid) -> SessionId
        ensures { result ≡ zxid }
    {
        SessionId {
            number: zxid.number(),
        }
    }

    /// Returns its number.
    pub fn number(self) -> u64
        ensures { result ≡ self }
    {
        self.number
    }
}
