//! The size of a tree, in numbers.

/// The size of a tree, as a server tells it (ZooKeeper Administrator's Guide, "The Four Letter
/// Words", `mntr`).
#[derive(Clone, Copy, Debug, PartialEq, Eq)]
pub struct Counts {
    /// The nodes, the root included.
    pub nodes: usize,
    /// The sessions.
    pub sessions: usize,
    /// The nodes that sessions own.
    pub owned: usize,
    /// The bytes of the data of all nodes.
    pub bytes: u64,
}
