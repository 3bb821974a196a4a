//! The limits of a journal.

/// No batch is appended to a file that has this many bytes (2 ^ 60) or more.
pub const MAX_BYTES: usize = 1 << 60;
