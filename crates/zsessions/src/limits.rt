//! The number of buckets.

/// The number of lists by deadline.
pub(crate) const BUCKETS: usize = 32;
