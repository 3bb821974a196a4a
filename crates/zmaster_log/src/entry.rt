//! What the master's log has.

use crate::entry_count::EntryCount;
use crate::node_name::NodeName;
use crate::node_names::NodeNames;
use zprotocol::{Epoch, LogNumber, ServerId};

/// An entry of the master's log.
#[derive(Drop)]
pub enum LogEntry {
    /// The initial chain: servers 1, 2 and so on, on these nodes.
    Opening(NodeNames),
    /// A server on this node is to join after the tail. Its number is the next one.
    Join(ServerId, NodeName),
    /// A server, a member of the chain, is ordered to leave.
    Retire(ServerId),
    /// A server reports something to the master.
    Reported(Report),
}

/// A report of a server to the master.
#[derive(Clone, Copy)]
pub struct Report {
    /// The server that appended the report.
    pub author: ServerId,
    /// How many reports it had appended before.
    pub earlier: EntryCount,
    /// What it reports.
    pub news: News,
}

/// What a server reports.
#[derive(Clone, Copy)]
pub enum News {
    /// The last number of its log, or `None` if it has no state: the message `Have`.
    Have(Epoch, Option<LogNumber>),
    /// It has received the state: the message `Joined`.
    Joined(Epoch),
    /// A server is gone, itself or another one: the message `Gone` of that server. Who appends it
    /// about another is a member with state, by all entries before this one.
    Gone(ServerId),
}
