//! A verdict.

/// What the bytes of a stranger bring.
#[derive(Drop)]
pub(crate) enum Verdict {
    /// Nothing is decided yet.
    Waits,
    /// It has given a login.
    Admits,
    /// It is refused, with this answer, which may be none.
    Refuses(Vec<u8>),
}
