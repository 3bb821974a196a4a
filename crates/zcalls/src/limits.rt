//! The limits on calls. Clauses and definitions refer to them by name.

/// The greatest number of parts in a multi of this project's profile.
pub const MAX_PARTS: usize = 64;

/// The greatest number of parts in a multi that a server can be set to.
pub const MOST_PARTS: usize = 1024;

/// The last number that a node's counter gives. The limit is ZooKeeper's.
pub const MAX_COUNTER: u64 = 2147483647;

/// The greatest call number.
pub const MAX_CALL_NUMBER: u64 = (1 << 62) - 1;

/// The most times that one change raises a counter of one node: by the end of a session that owns
/// as many nodes as a tree can have.
pub const MAX_RAISES: u64 = 1 << 21;
