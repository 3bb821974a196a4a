//! How settling ends.

/// How settling (running until quiescent) ends.
#[derive(Clone, Copy, Debug, PartialEq, Eq)]
pub enum Settled {
    /// No message is left that could be delivered.
    Quiet,
    /// As many events were done as were allowed. More may be left to do.
    Limit,
}
