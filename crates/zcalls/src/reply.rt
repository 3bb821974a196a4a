//! The replies of the service.

use crate::listed::{Names, Replies};
use crate::refusal::Refusal;
use zpath::Path;
use ztree::{Data, SessionId, Stat};

/// The reply to one part of a multi.
#[derive(Drop)]
pub enum PartReply {
    /// The node at this path was created.
    Created(Path),
    /// The node was deleted.
    Deleted,
    /// The data was written; this is the node's new stat.
    Set(Stat),
    /// The node exists and has the version.
    Checked,
}

/// The reply to a call.
#[derive(Drop)]
pub enum Reply {
    /// The node at this path was created.
    Created(Path),
    /// The node was deleted.
    Deleted,
    /// The data was written; this is the node's new stat.
    Set(Stat),
    /// All parts of the multi were done; these are their replies.
    Multi(Replies),
    /// A session was opened: its id, and the timeout granted, in ticks.
    Opened(SessionId, u64),
    /// The session was renewed: its timeout starts again now.
    Pinged,
    /// The session was closed.
    Closed,
    /// The clock's new tick, the number of sessions that it ended, and the number of nodes that it
    /// then removed since their TTL had expired.
    Ticked(u64, usize, usize),
    /// The data of a node, and its stat.
    Data(Data, Stat),
    /// The stat of a node.
    Exists(Stat),
    /// The names of a node's children, in byte order.
    Children(Names),
    /// The call was refused.
    Refused(Refusal),
    /// The multi was refused: the number of the refused part, counted from 1, and its refusal.
    MultiRefused(usize, Refusal),
}
