//! What passes of bytes that came.

/// What passes of bytes that came on a connection.
#[derive(Drop)]
pub enum Passed {
    /// All of them.
    All,
    /// These in their place, which may be none.
    These(Vec<u8>),
}
