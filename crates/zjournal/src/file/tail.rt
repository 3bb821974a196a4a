//! The end of a file that no commit byte counts.

/// Bytes at the end of a file that no commit byte counts.
#[derive(Clone, Copy, Debug, PartialEq, Eq)]
pub struct Tail {
    /// The index of the first.
    pub at: usize,
    /// How many there are.
    pub count: usize,
}
