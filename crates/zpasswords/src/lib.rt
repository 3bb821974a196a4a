//! The passwords of sessions, derived from a secret.
//!
//! It takes a secret of 32 bytes and the id of a session. It returns the session's password, and
//! checks whether bytes from a client are that password. A password is the first half of the
//! HMAC-SHA256 of the id under the secret. A server stores none: it derives each anew.
//!
//! The definitions: `specs/Hmac.antt` (HMAC-SHA256), `specs/Passwords.antt`.
//!
//! # Why
//!
//! ZooKeeper derives its passwords likewise (RFC 2104, FIPS 180-4). The front needs no source of
//! randomness: it is a function of its secret and its inputs. No password is stored in a journal.
#![tactic(auto)]

mod hmac;
mod password;
mod rows;
mod secret;

pub use password::Password;
pub use secret::Secret;
