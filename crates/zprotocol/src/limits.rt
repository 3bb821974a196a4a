//! The limits of the chain.

use ztree::limits::MAX_CLIENTS;

/// The greatest number of servers: they are numbered from 1 to this one.
pub const MAX_SERVERS: u8 = 16;

/// The greatest number of processes: the master, the servers and the clients.
pub const PROCESSES: usize = 1 + MAX_SERVERS as usize + MAX_CLIENTS as usize;

/// The greatest log number.
pub const MAX_LOG_NUMBER: u64 = (1 << 62) - 1;

/// The greatest epoch.
pub const MAX_EPOCH: u64 = (1 << 62) - 1;
