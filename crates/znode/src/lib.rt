//! A node: a server of the chain as a process of its own, without its sockets.
//!
//! A `Node` consumes what its host says: entries of the master's log, records of links from other
//! processes, and links that are lost. It produces what the host is to do: records that are to be
//! sent, and entries that are to be appended to the log. `Node::take` takes one input.
//!
//! The node has a replica of the master, and at most one server. It appends an entry by which it
//! gets a number; when it reads that entry in the log, its server begins. From then on the server
//! receives the messages of the links, and the orders that the log has for it. What the server puts
//! to the master becomes reports in the log, one at a time, and what it puts to other processes
//! waits until the host asks for it.
//!
//! `pipe` has the bytes of inputs and outputs, and `node_command` is the program without its
//! devices.
//!
//! # Why
//! The node doesn't know sockets, time or threads. So all that it sends and reports is a function
//! of what it was given, but for memory.
#![tactic(auto)]

mod asking;
mod fault;
mod flags;
pub mod laws;
mod limits;
mod logging;
mod node;
pub mod pipe;
mod program;
mod rows;
mod seat;
mod status;
mod turn;
mod waiting;
mod words;

pub use fault::{NodeFault, RunFault};
pub use limits::{BLOCK, MAX_ENTRY, MAX_WRITTEN};
pub use node::Node;
pub use program::node_command;
pub use status::NodeStatus;
pub use words::{NodeSettings, node_settings};
