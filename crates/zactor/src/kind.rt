//! What a process holds.

use zclient::ClientCore;
use zmaster::Master;
use zserver::Server;

/// What a process holds, by its kind.
#[derive(Drop)]
pub(crate) enum Kind {
    /// The master.
    Master(Master),
    /// A server that hasn't stopped.
    Server(Server),
    /// A client.
    Client(ClientCore),
    /// A server that has stopped for good.
    Gone,
}
