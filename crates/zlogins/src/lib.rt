//! Logins: who may make calls, from the text of a file.
//!
//! It takes a text with a login on each line, as ZooKeeper spells them for its scheme `digest`:
//! `digest user:hash`. The hash is the base64 of the SHA-1 of `user:password`. It returns them, or
//! the first faulty line. Then it says whether a client's `user:password` is that of one of them.
//!
//! The definitions: `specs/Logins.antt`, `specs/Reading.antt`.
//!
//! # Why
//!
//! SHA-1 is ZooKeeper's choice, and its clients and tools spell logins so. A hash that is read can
//! be tried against lists of passwords, so the file is its owner's alone, and a password is long.
#![tactic(auto)]

mod fault;
mod login;
mod logins;
mod reading;
mod rows;
mod spelling;

pub use fault::LoginsFault;
pub use login::Login;
pub use logins::Logins;
