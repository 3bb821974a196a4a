//! What became of a received message.

/// What became of a message that a server received.
#[derive(Clone, Copy, Debug, PartialEq, Eq)]
pub enum Taken {
    /// The server did what its table says.
    Acted,
    /// The message was a query for which memory ran out: it is as if it had been lost.
    Unheard,
}
