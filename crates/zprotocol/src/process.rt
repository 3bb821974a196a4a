//! The processes.

use crate::server_id::ServerId;
use zcalls::ClientId;

/// A process that sends and receives messages.
#[derive(Clone, Copy, Debug, PartialEq, Eq)]
pub enum Process {
    /// The master: it detects failures, and sends servers and clients the chain's configuration.
    Master,
    /// A server: a member of the chain, a spare, or one that has failed.
    Server(ServerId),
    /// A client.
    Client(ClientId),
}
