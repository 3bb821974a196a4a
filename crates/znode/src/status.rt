//! What a host may know of its node.

use zprotocol::ServerId;

/// What a host may know of its node.
#[derive(Clone, Copy, Debug, PartialEq, Eq)]
pub struct NodeStatus {
    /// The number of its server, if it has one.
    pub own: Option<ServerId>,
    /// Whether the server is live, by the log.
    pub is_live: bool,
    /// Whether the server has the state: it opened the log, or has put `Joined`.
    pub has_state: bool,
}
