//! The limits of a node.

/// The most bytes of an entry of the log, above all that entries have.
pub const MAX_ENTRY: u32 = 4_096;

/// The most records that are written for one process at one turn.
pub const MAX_WRITTEN: usize = 128;

/// The bytes that are read at once.
pub const BLOCK: usize = 65_536;
