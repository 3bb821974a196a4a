//! The limits of the master.

use zprotocol::MAX_SERVERS;
use ztree::limits::MAX_CLIENTS;

// No row of the table sends this many messages to servers at once: the rest is spare.
const ROOM_FOR_SERVERS: usize = 8;

/// The messages that the caller must reserve room for: one to each client, and some to servers.
pub const MAX_POSTS: usize = MAX_CLIENTS as usize + ROOM_FOR_SERVERS;

/// The greatest number of servers, as a length.
pub(crate) const SERVERS: usize = MAX_SERVERS as usize;
