//! The limits of a row and of a chunk. They are this project's profile.
//!
//! # Why
//! The longest row has little more than 1 MiB, far below the limit of a frame. So a writer can fail
//! only by running out of memory.

ghost use Rattle.std.specs.Prelude.{◌≡◌};
ghost use Rattle.zsnapshots.specs.declared.limits.TheConstants.{CHUNK, CONTAINER, MAX_ROW};

use zwire::records::MAX_ROW_BYTES;

/// The greatest number of bytes after a row's length: those of a cached reply to a multi with the
/// most parts.
pub const MAX_ROW: u32 = MAX_ROW_BYTES - 4;

/// The number of a container's term in a row: above every TTL, as 0 is below them.
pub const CONTAINER: u64 = 1 << 63;

/// A chunk of a snapshot's text ends with the record that reaches this length.
pub const CHUNK: usize = 65_536;

/// The limits, as numbers.
pub fn limits_are_numbers()
    ensures row { MAX_ROW ≡ 1053714 }
    ensures container { CONTAINER ≡ 9223372036854775808 }
    ensures chunk { CHUNK ≡ 65536 }
{}
