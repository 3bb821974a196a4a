//! A session of a client.

use crate::client::ClientId;

/// A session (ZooKeeper Programmer's Guide, "ZooKeeper Sessions"; counting time in ticks is this
/// project's profile). It expires at the tick that reaches its deadline, unless its client pings
/// before.
#[derive(Clone, Copy, Debug, PartialEq, Eq)]
pub struct Session {
    /// The client that opened it.
    pub client: ClientId,
    /// The number of ticks without a ping after which it expires.
    pub timeout: u64,
    /// The tick at which it expires.
    pub deadline: u64,
}
