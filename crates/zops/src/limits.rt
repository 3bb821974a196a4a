//! The limit on a machine. Clauses and definitions refer to it by name.

/// The greatest number of entries that a machine applies. The limit is this project's profile.
pub const MAX_APPLIED: u64 = (1 << 62) - 1;
