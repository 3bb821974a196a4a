//! The limits of a tree, and the bounds on its numbers. Clauses and definitions refer to them by
//! name. A limit of the profile is one that scripts, threads and the library have.

ghost use Rattle.std.specs.Prelude.{◌≡◌, IsTrue, IsFalse};
ghost use Rattle.ztree.specs.Limits.{AreLimits, profile};

/// The limits of a tree. They are chosen when the tree begins, and no call changes them.
#[derive(Clone, Copy, Debug, PartialEq, Eq)]
pub struct TreeLimits {
    /// The greatest number of znodes, the root included.
    pub nodes: usize,
    /// The greatest number of sessions.
    pub sessions: usize,
    /// The greatest timeout that a session is granted, in ticks.
    pub timeout: u64,
}

impl TreeLimits {
    /// Returns the limits of the profile.
    pub fn profile() -> TreeLimits
        ensures { result ≡ profile }
    {
        TreeLimits {
            nodes: MAX_NODES,
            sessions: MAX_SESSIONS,
            timeout: MAX_TIMEOUT,
        }
    }

    /// Returns whether a tree can have these limits.
    pub fn is_allowed(&self) -> bool
        ensures yes { IsTrue result → AreLimits self.now }
        ensures no { IsFalse result → AreLimits self.now → ⊥ }
    {
        0 < self.nodes
            && self.nodes <= MOST_NODES
            && self.sessions <= MOST_SESSIONS
            && MIN_TIMEOUT <= self.timeout
            && self.timeout <= MOST_TIMEOUT
    }
}

/// The greatest size of a znode's data in the profile, in bytes.
pub const MAX_DATA: usize = 65_536;

/// The greatest size of a znode's data that a server can be set to, in bytes. A response to getData
/// has 88 bytes beside it, and a frame of ZooKeeper has at most 1,048,575 (`jute.maxbuffer`).
pub const MOST_DATA: usize = 1_048_487;

/// The greatest number of znodes in a tree of the profile, the root included.
pub const MAX_NODES: usize = 4096;

/// The greatest number of znodes that a tree can be limited to.
pub const MOST_NODES: usize = 1 << 21;

/// The greatest number of sessions in a tree of the profile.
pub const MAX_SESSIONS: usize = 1024;

/// The greatest number of sessions that a tree can be limited to.
pub const MOST_SESSIONS: usize = 1 << 20;

/// The least session timeout, in ticks. The limit is ZooKeeper's.
pub const MIN_TIMEOUT: u64 = 2;

/// The greatest session timeout in a tree of the profile, in ticks. The limit is ZooKeeper's.
pub const MAX_TIMEOUT: u64 = 20;

/// The greatest session timeout that a tree can be limited to, in ticks.
pub const MOST_TIMEOUT: u64 = 1 << 20;

/// The number of clients.
pub const MAX_CLIENTS: u8 = 32;

/// The greatest TTL, in ticks.
pub const MAX_TTL: u64 = 1 << 20;

/// The owner that the stat of a container shows: the bits of ZooKeeper's `Long.MIN_VALUE`.
pub const CONTAINER_OWNER: u64 = 1 << 63;

/// The bound on zxids: each is below it.
pub const ZXID_BOUND: u64 = 1 << 40;

/// The bound on ticks: each is below it.
pub const TICK_BOUND: u64 = 1 << 40;

/// The bound on a znode's counters: each is below it.
pub const COUNTER_BOUND: u64 = 1 << 62;

/// The bound on sessions' deadlines: each is below it.
pub const DEADLINE_BOUND: u64 = 1 << 62;
