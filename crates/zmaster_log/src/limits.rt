//! The limits of the master's log.

use zprotocol::MAX_SERVERS;

/// The greatest length of a node's name, in bytes.
pub const MAX_NODE_NAME: usize = 32;

/// The greatest number of entries of a log.
pub const MAX_ENTRIES: u64 = (1 << 62) - 1;

/// The greatest number of servers, as a length.
pub(crate) const SERVERS: usize = MAX_SERVERS as usize;
