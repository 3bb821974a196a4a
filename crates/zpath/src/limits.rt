//! The limits of a path. They are this project's profile.

/// The greatest length of a name, in bytes.
pub const MAX_NAME_LEN: usize = 255;

/// The greatest length of a path's text, in bytes.
pub const MAX_TEXT_LEN: usize = 1024;

/// The greatest number of names in a path.
pub const MAX_DEPTH: usize = 64;

/// The number of counter digits at the end of a sequential node's name.
pub const COUNTER_DIGITS: usize = 10;
