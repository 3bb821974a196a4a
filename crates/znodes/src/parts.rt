//! The writable parts of a node.

use ztree::{Data, Zxid};

/// The fields that a child's creation or removal changes in its parent.
#[derive(Clone, Copy)]
pub struct Marks {
    /// The zxid of the last change of its children.
    pub pzxid: Zxid,
    /// The number of times a child was created or removed.
    pub cversion: u64,
    /// The number that the next sequential create beneath it appends to the name.
    pub seq: u64,
}

/// The fields that a write of its data changes in a node.
#[derive(Drop)]
pub struct Content {
    /// The data.
    pub bytes: Data,
    /// The zxid of the last change of its data.
    pub mzxid: Zxid,
    /// The tick of the last change of its data.
    pub mtime: u64,
    /// The number of changes of its data.
    pub version: u64,
}
