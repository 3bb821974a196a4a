//! The limits that a store adds to those of the tree.

/// The bound on the numbers of Ids: each is below it.
pub const ID_BOUND: u128 = 1 << 127;
