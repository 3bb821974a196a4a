//! One login.
//!
//! # Why
//!
//! All bytes are compared, even after one that differs, so that the time doesn't reveal how many
//! were right. No clause speaks of time. Another length is refused at once: how long a user's name
//! is, and a hash, is no secret.

ghost use Rattle.std.specs.Prelude.{◌≡◌, bytes_eq};

use std::marker::Model;

/// A login: `user:hash`.
#[derive(Drop)]
pub struct Login {
    text: Vec<u8>,
}

impl Model for Login {
    ghost use Rattle.std.specs.Prelude.{ℕ, List};

    ghost Value = { List ℕ };

    ghost view = { λ login. login.text.items };
}

impl Login {
    /// Makes the login with this text.
    pub(crate) fn new(text: Vec<u8>) -> Login
        ensures { result ≡ text.items }
    {
        Login { text }
    }

    /// Returns whether this is the login. All bytes are compared, even after one that differs.
    pub(crate) fn is_same(&self, given: &[u8]) -> bool
        ensures { result ≡ bytes_eq given.now self.now }
    {
        is_same(given, &self.text)
    }
}

// Returns whether the bytes are the same. All are compared, even after one that differs.
fn is_same(given: &[u8], own: &[u8]) -> bool
    ensures { result ≡ bytes_eq given.now own.now }
{
    if given.len() != own.len() {
        return false;
    }
    let mut difference = 0u8;
    'bytes: for i in 0..own.len() {
        difference |= given[i] ^ own[i];
    }
    difference == 0
}
