//! What callers see of a run.

use zcalls::{Call, CallNumber, ClientId, Reply};

/// A call that is invoked, or its response. A history is a list of these, in the order of their
/// events.
#[derive(Drop)]
pub enum CallEvent {
    /// A client invokes a call: the client, its number of the call, counted from 1, and the call.
    Begin(ClientId, CallNumber, Call),
    /// A client receives the response to its outstanding call of that number: the client, the
    /// number, and the reply.
    Answer(ClientId, CallNumber, Reply),
}
