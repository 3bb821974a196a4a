//! The channel that is next.

/// The positions of the sender and of the receiver of a channel. The master has position 0; then
/// come the servers and the clients, each by number.
#[derive(Clone, Copy, Debug, PartialEq, Eq)]
pub struct Turn {
    pub sender: usize,
    pub receiver: usize,
}
