//! The inputs of a server.

/// An input of a server for ZooKeeper's clients.
#[derive(Clone, Copy)]
pub enum Input<'a> {
    /// A connection was opened. Connections are numbered from 1. A number is used again only after
    /// its `Ended`.
    Opened(u32),
    /// Bytes arrived on a connection.
    Came(u32, &'a [u8]),
    /// A connection ended. Nothing more is sent on it.
    Ended(u32),
    /// A tick elapsed.
    Tick,
}
