//! The clock with the terms of the server, the base of zxids, and the last zxid and tick of a tree.
//!
//! # Why
//!
//! A tree in memory begins anew with each start, and so do its zxids. A client that has seen more
//! changes than the tree has is refused, as in ZooKeeper. So each start has a greater base, and
//! clients of an earlier one are told that their session has expired.

use zrequests::Terms;
use ztree::Zxid;

/// The terms of the server, how ticks become milliseconds since 1970, and how zxids become those
/// that clients are told.
#[derive(Clone, Copy, Debug, PartialEq, Eq)]
pub struct Clock {
    /// What the server accepts in requests, and the length of a tick.
    pub terms: Terms,
    /// When the service was started, in milliseconds since 1970.
    pub started: u64,
    /// What is added to a zxid of the tree when it is told.
    pub base: u64,
}

/// The last zxid and the tick of the tree.
#[derive(Clone, Copy, Debug, PartialEq, Eq)]
pub struct Now {
    /// The zxid of its last change.
    pub zxid: Zxid,
    /// Its tick.
    pub time: u64,
}
