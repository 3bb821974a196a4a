//! How long a client waits for a reply.
//!
//! # Why
//!
//! No clause counts calls of `turn`: one that receives nothing leaves no trace. So a test puts
//! stale replies into the client's ring, and the trace shows how many were received.

/// How long a client waits for a call's reply, and how often it sends the call again.
#[derive(Clone, Copy, Debug, PartialEq, Eq)]
pub struct Patience {
    /// How often `turn` is called for the reply after each send.
    pub turns: u64,
    /// How often the call is sent again.
    pub retries: u64,
}
