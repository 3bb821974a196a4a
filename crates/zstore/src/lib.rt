//! The store of one machine: its znodes, its sessions and its clock; and a savepoint, to roll back
//! to.
//!
//! Consumes paths and data that the caller has validated; produces nodes, stats and counts. Every
//! contract speaks of the tree that the store holds (ztree's `specs/Tree.antt`), and of the Ids of
//! its nodes (`specs/StoreView.antt`). A call's effect is the sequential specification's change of
//! that tree. The cost of a call depends on what it changes or returns, not on the size of the
//! tree.
#![tactic(auto)]

pub mod laws;
mod limit_fault;
mod limiting;
pub mod limits;
mod log;
mod marking;
mod reading;
mod restore_fault;
mod restoring;
mod rows;
mod sessions;
mod store;
mod taking;
mod undo;
mod undoing;
mod writing;

pub use limit_fault::LimitFault;
pub use restore_fault::RestoreFault;
pub use store::Store;
pub use znodes::Id;
pub use ztree::limits::{MAX_DATA, MAX_NODES, MAX_SESSIONS};
pub use ztree::{ClientId, Data, Node, Session, SessionId, Stat, Term, TreeLimits, Ttl, Zxid};
