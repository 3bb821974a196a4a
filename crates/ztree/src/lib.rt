//! The plain tree: the state of the sequential specification, and the types of the values in it.
//!
//! Every call of every layer is specified on these definitions:
//!
//! - `specs/Limits.antt`: the limits of a tree.
//! - `specs/Tree.antt`: the znodes.
//! - `specs/Sessions.antt`: the sessions.
//! - `specs/Stale.antt`: the znodes that a tick removes.
//! - `specs/Lawful.antt`: the invariant of every tree that the service can reach.
//!
//! How a machine stores a tree is decided in the crates above. This crate consumes paths (`zpath`)
//! and produces values: `Node`, `Stat`, `Data`, `Session`, `Zxid` and other numbers.
//!
//! # Why
//! The definitions find ephemerals and expired sessions by filtering all of them, which is the
//! easiest to read. A store has lists for them, and its invariant says that these hold the same.
//!
//! Numbers that could be swapped have types of their own, such as `Zxid`, `SessionId` and
//! `ClientId`. Ticks and versions are `u64`, by the names of their fields. So is a node's owner: 0
//! means no owner, and the stat shows a number: for a container the one that ZooKeeper shows.
#![tactic(auto)]

mod client;
pub mod laws;
pub mod limits;
mod node;
mod node_data;
mod rows;
mod session;
mod session_id;
mod term;
mod ttl;
mod zxid;

pub use client::ClientId;
pub use limits::{
    CONTAINER_OWNER, MAX_DATA, MAX_NODES, MAX_SESSIONS, MAX_TTL, MOST_DATA, MOST_NODES,
    MOST_SESSIONS, MOST_TIMEOUT, TreeLimits,
};
pub use node::{Node, Stat};
pub use node_data::{Data, DataFault};
pub use session::Session;
pub use session_id::SessionId;
pub use term::Term;
pub use ttl::Ttl;
pub use zxid::Zxid;
