//! The znodes of one machine, linked to their parents and owners, and found by path.
//!
//! A node is in a slot, under an Id that is never given out twice. Three intrusive lists run
//! through the nodes: the children of a node (list 0), the nodes of a session (list 1), and the
//! nodes that ticks may remove (list 2): containers, and those with a TTL. An index finds the Id at
//! a path. So the cost of a change depends on what it changes, not on the size of the tree. A
//! removed node can come back under its Id without allocating.
//!
//! Consumes validated paths and nodes; produces Ids, and nodes by Id. Contracts speak of the finite
//! maps in `specs/NodesView.antt`: nodes by path, and paths by Id.
#![tactic(auto)]

mod changing;
mod children;
mod counts;
mod index;
mod linking;
mod nodes;
mod owners;
mod owning;
mod parts;
mod paths;
mod reading;
mod row;
mod stale;
mod writing;

pub use nodes::Nodes;
pub use parts::{Content, Marks};
pub use zslots::Id;
