//! Sizes of a player's buffers in bytes, and the limit of a line's events: this project's profile.

use zscript_text::limits::MAX_LINE;

/// The size of a block: bytes are read, and replies are written, in blocks.
pub const BLOCK: usize = 65_536;

/// The most bytes stored of a line: one more than a line may have, so that a longer one shows.
pub const KEPT: usize = MAX_LINE + 1;

/// The most events that are done while the world settles at one line.
pub const MAX_EVENTS: usize = 100_000;
