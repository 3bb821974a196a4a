//! The password of a session.
//!
//! # Why
//!
//! All sixteen bytes are compared, even after one that differs, so that the time doesn't reveal how
//! many were right. No clause speaks of time. Another length is refused at once: it is no secret.

ghost use Rattle.std.specs.Prelude.{◌≡◌, length, nat_eq, take};
ghost use lib.Pointwise.{pointwise};

use std::marker::Model;

/// The password of a session: sixteen bytes, which its client stores.
#[derive(Clone, Copy)]
pub struct Password {
    bytes: [u8; 16],
}

impl Model for Password {
    ghost use Rattle.std.specs.Prelude.{ℕ, List};

    ghost Value = { List ℕ };

    ghost view = { λ p. p.bytes };

    ghost inverse = { λ bytes. record { bytes = bytes } };
}

impl Password {
    /// Makes the password with these bytes.
    pub fn new(bytes: [u8; 16]) -> Password
        ensures { result ≡ bytes }
    {
        Password { bytes }
    }

    /// Makes the password of the first half of these bytes.
    pub fn first_of(digest: &[u8; 32]) -> Password
        ensures { result ≡ take 16 digest.now }
    {
        let mut bytes = [0; 16];
        bytes.copy_from_slice(&digest[..16]);
        Password { bytes }
    }

    /// Returns its bytes.
    pub fn as_bytes(&self) -> &[u8]
        ensures bytes { result.now ≡ self.now }
        ensures length { length self.now ≡ 16 }
    {
        &self.bytes
    }

    /// Returns whether these bytes are the password. All sixteen are compared, even after one that
    /// differs.
    pub fn is_given(&self, given: &[u8]) -> bool
        ensures { result ≡ pointwise nat_eq given.now self.now }
    {
        let own = self.as_bytes();
        if given.len() != own.len() {
            return false;
        }
        let mut difference = 0u8;
        'bytes: for i in 0..own.len() {
            difference |= given[i] ^ own[i];
        }
        difference == 0
    }
}
