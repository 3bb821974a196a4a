//! What a host says.

use zconnections::buffers::Input;

/// What a host says to a server.
pub enum Message<'a> {
    /// Something came to the server.
    Input(Input<'a>),
    /// All inputs so far are to be committed. Then their chunks are to be sent, and an end after
    /// them.
    Keep,
}
