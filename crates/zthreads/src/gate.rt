//! A hook between receiving a message and acting on it.

use zprotocol::{Message, Process};
use zserver::Snapshot;

/// Called on a server's thread between receiving a message and acting on it. So a test can hold a
/// server there.
pub trait Gate: Drop {
    /// Passes the message on; it is acted on once this returns.
    fn pass(&mut self, from: &Process, message: &Message<Snapshot>);
}

/// The gate that passes each message at once.
#[derive(Clone, Copy)]
pub struct Open;

impl Gate for Open {
    fn pass(&mut self, _from: &Process, _message: &Message<Snapshot>) {}
}
