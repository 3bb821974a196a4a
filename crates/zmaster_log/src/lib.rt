//! The master as a log: every node plays the same entries in the same order, so each node has the
//! same master.
//!
//! An entry is an input of the master: an order of the operator, or a report of a server. The log
//! is appended to by compare-and-set on the index, so all nodes agree on entry `n` before one plays
//! it. A `MasterReplica` consumes entries and produces the orders of the master for one server,
//! the one that its node runs. `entry_text` and `read_entry` lead to an entry's bytes and back.
//!
//! The definitions: `specs/Nodes.antt` (names of nodes), `specs/Log.antt` (what each entry does),
//! `specs/Bytes.antt` (the bytes of entries), `specs/Laws.antt`.
//!
//! # Why
//! There is no master to elect, and the links between the master and its servers lose nothing: an
//! order follows from the entries alone, and its receiver's own node makes it.
//!
//! A server's report has the number of its earlier ones. So one that is appended twice, when the
//! answer to the first attempt is lost, is played once.
#![tactic(auto)]

mod entry;
mod entry_count;
pub mod laws;
mod limits;
mod membership;
mod node_name;
mod node_names;
mod play_fault;
mod reading;
mod replica;
mod rows;
mod writing;

pub use entry::{LogEntry, News, Report};
pub use entry_count::EntryCount;
pub use limits::{MAX_ENTRIES, MAX_NODE_NAME};
pub use node_name::{NodeName, is_node_name};
pub use node_names::NodeNames;
pub use play_fault::PlayFault;
pub use reading::read_entry;
pub use replica::MasterReplica;
pub use writing::entry_text;
