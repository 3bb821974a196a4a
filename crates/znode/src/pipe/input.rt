//! What a host says.

use zmaster_log::EntryCount;
use zprotocol::{Process, ServerId};

/// What a host says to a node.
#[derive(Drop)]
pub enum NodeInput<'a> {
    /// The log has this entry at this index. Entries come in order, each once.
    Entry(EntryCount, &'a [u8]),
    /// The log has no further entry now.
    CaughtUp,
    /// A record of a link from this process: its tag, and its bytes.
    Link(Process, u8, &'a [u8]),
    /// The link to this server, or from it, broke or can't be made.
    Lost(ServerId),
    /// What waits is to be written now.
    Turn,
    /// A connection from this process has ended.
    Ended(Process),
}
