//! Numbers that clauses and definitions refer to by name.

/// A version that no node has, and no access control list.
pub const NO_VERSION: u64 = 1 << 61;

/// All permissions, one bit each (`ZooDefs.Perms.ALL`).
pub const ALL_PERMISSIONS: i32 = 31;

/// The most paths in one request that re-registers watches. The limit is this project's profile.
pub const MAX_PATHS: usize = 10_000;
