//! The calls of the service: the types, and the definitions of what each call does and returns.
//!
//! The sequential step (`specs/Step.antt`) is the sequential specification: the service as one
//! machine that does one call after the other. The entry step (`specs/Cached.antt`) lets an update
//! act once, however often it is sent. Their laws are contracts of functions with empty bodies.
//!
//! Consumes the values of `ztree`; produces `Call`, `Entry` and `Reply`.
//!
//! # Why
//! This crate has no store: `zops` is the machine that does the calls on one. So the chain's tables
//! and the linearizability proof rest on what a call means, not on how a machine stores its tree.
#![tactic(auto)]

mod call;
mod call_number;
mod change;
mod constructors;
mod copies;
pub mod laws;
pub mod limits;
mod listed;
mod multi;
mod refusal;
mod reply;
mod rows;
mod shared_entry;

pub use call::{
    Call, Check, Create, Delete, Entry, Expected, Kind, Lifetime, Part, Query, SetAcl, SetData,
    Update,
};
pub use call_number::CallNumber;
pub use change::{Change, ChangeReply};
pub use limits::{MAX_CALL_NUMBER, MAX_PARTS, MOST_PARTS};
pub use listed::{Names, Replies};
pub use multi::Multi;
pub use refusal::Refusal;
pub use reply::{PartReply, Reply};
pub use shared_entry::SharedEntry;
pub use ztree::{ClientId, Data, DataFault, SessionId, Stat, Term, TreeLimits, Ttl};
