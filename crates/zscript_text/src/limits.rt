//! The limits of the script's text. They are this project's profile.

use ztree::MAX_DATA;

/// The greatest length of a line in bytes, without its LF: eight times that of a node's data.
pub const MAX_LINE: usize = 8 * MAX_DATA;

/// The bound on numbers in words: each is below it.
pub const NUMBER_BOUND: u64 = 1 << 62;
