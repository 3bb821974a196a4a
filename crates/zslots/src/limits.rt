//! The limits. Clauses and definitions refer to them by name.

/// The number of Ids that one `Slots` can give out: a generation has 64 bits.
pub const GIVEN_BOUND: u128 = 1 << 64;

/// The greatest number of slots: an index has 32 bits.
pub const MAX_SLOTS: usize = 1 << 32;

/// The greatest length of a list.
pub const MAX_LENGTH: usize = usize::MAX;
