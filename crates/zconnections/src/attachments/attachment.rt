//! The attachment of one session.
//!
//! # Why
//!
//! A session is renewed at two ticks after a request. The first keeps it alive; the second counts its
//! timeout from a tick after the request. So it lives for all ticks of the timeout, and at most one
//! more, as ZooKeeper's does.
//!
//! The flag of an ephemeral node is never cleared. To track deletions would need a mirror of the
//! tree, and a stale flag only costs a needless check of the watched nodes.

/// The attachment of a session: what a server stores of it beside the tree.
#[derive(Clone, Copy)]
pub struct Attachment {
    /// The connection that has the session, if any.
    pub connection: Option<u32>,
    /// Whether it sent a request since the last `rest`.
    pub is_touched: bool,
    /// Whether it sent one between the last `rest` and the one before.
    pub was_touched: bool,
    /// Whether it ever made an ephemeral node.
    pub made_ephemeral: bool,
}
