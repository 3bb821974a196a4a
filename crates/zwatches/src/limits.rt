//! The limits of a table.
//!
//! # Why
//!
//! ZooKeeper has no such limits and no code for them. The front refuses a watch over a limit with
//! SystemError: a client whose watch was silently dropped would wait forever.
//!
//! A connection has a share of its own. With one limit for all together, one client could use it
//! up, and every other client's locks would fail.

/// How many watches there may be.
#[derive(Clone, Copy, Debug, PartialEq, Eq)]
pub struct WatchLimits {
    /// Of all connections together.
    pub most: usize,
    /// Of each connection.
    pub each: usize,
}
