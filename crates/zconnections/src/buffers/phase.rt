//! The phase of a connection.

use ztree::SessionId;

/// The phase of a connection.
#[derive(Clone, Copy)]
pub enum Phase {
    /// Nothing was read on it yet.
    Silent,
    /// It has this session.
    Speaking(SessionId),
    /// Nothing more is read or sent on it.
    Closing,
}
