//! The secret that a server derives its passwords from.
//!
//! # Why
//!
//! The host draws it. A server in memory has a new one at each start. Its session ids begin anew,
//! and an old password must not open another client's session.

ghost use Rattle.std.specs.Prelude.{◌≡◌};
ghost use Rattle.zpasswords.specs.Passwords.{password_of as derived};

use crate::hmac::hmac_sha256;
use crate::password::Password;
use std::marker::Model;
use ztree::SessionId;

/// The secret of a server: 32 bytes, which no client sees.
#[derive(Drop)]
pub struct Secret {
    bytes: [u8; 32],
}

impl Model for Secret {
    ghost use Rattle.std.specs.Prelude.{ℕ, List};

    ghost Value = { List ℕ };

    ghost view = { λ s. s.bytes };

    ghost inverse = { λ bytes. record { bytes = bytes } };
}

impl Secret {
    /// Makes the secret with these bytes.
    pub fn new(bytes: [u8; 32]) -> Secret
        ensures { result ≡ bytes }
    {
        Secret { bytes }
    }

    /// Returns the password of a session.
    #[tactic(auto, unfolding(crate::specs::Passwords::password_of))]
    pub fn password_of(&self, session: SessionId) -> Password
        ensures { result ≡ derived self.now session }
    {
        let digest = hmac_sha256(&self.bytes, &session.number().to_be_bytes());
        Password::first_of(&digest)
    }
}
