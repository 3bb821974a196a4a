//! The stat of a node.

/// The stat of a node (`Stat` of zookeeper.jute); its fields are in the order of the encoding.
#[derive(Clone, Copy, Debug, PartialEq, Eq)]
pub struct StatRecord {
    /// The zxid of the change that created the node.
    pub czxid: i64,
    /// The zxid of the last write of its data.
    pub mzxid: i64,
    /// When it was created, in milliseconds since 1970.
    pub ctime: i64,
    /// When its data was last written, in milliseconds since 1970.
    pub mtime: i64,
    /// The number of writes of its data.
    pub version: i32,
    /// The number of changes of its children.
    pub cversion: i32,
    /// The number of changes of its ACL.
    pub aversion: i32,
    /// The session that owns it, or 0.
    pub ephemeral_owner: i64,
    /// The length of its data in bytes.
    pub data_length: i32,
    /// The number of its children.
    pub num_children: i32,
    /// The zxid of the last change of its children.
    pub pzxid: i64,
}
