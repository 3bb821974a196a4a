//! A service of one tree.
//!
//! It takes calls (updates of client 0, and queries) one after the other, and returns their
//! replies. These are the replies of the plain tree (`zprotocol::world`'s `serve`). `TreeService`
//! is the contract of such a service. `LocalTree` implements it: a tree in memory.
//!
//! The definitions: `specs/Local.antt` (what a contract sees of a tree in memory),
//! `specs/Machines.antt` (the tree of a machine), and `specs/Sizes.antt` (what is told of a tree).
//!
//! # Why
//!
//! There is one tree and no chain. All servers of one process fail together, so a chain inside it
//! would protect from nothing that one tree doesn't. It would apply each change once a server.
#![tactic(auto)]

mod counts;
mod fresh;
mod local_tree;
pub mod log;
mod service;
mod step;

pub use counts::Counts;
pub use local_tree::LocalTree;
pub use service::TreeService;
pub use zops::LimitFault;
pub use ztree::TreeLimits;
