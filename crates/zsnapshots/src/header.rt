//! The first row of a snapshot.
//!
//! # Why
//! The header counts the rows of each kind, and no row has a tag. So the reader knows which kind
//! comes next and which row is the last, without looking further.

use zprotocol::LogNumber;
use ztree::{TreeLimits, Zxid};

/// The numbers of a state, the limits of its tree, and how many rows of each kind follow.
#[derive(Clone, Copy, Debug, PartialEq, Eq)]
pub struct Header {
    /// The number of the last entry that the machine applied.
    pub last: LogNumber,
    /// The tick of the clock.
    pub time: u64,
    /// The zxid of the last change.
    pub zxid: Zxid,
    /// The limits of the tree.
    pub limits: TreeLimits,
    /// The number of sessions.
    pub sessions: u32,
    /// The number of nodes, the root included.
    pub nodes: u32,
    /// The number of clients with a cached reply.
    pub replies: u32,
}
