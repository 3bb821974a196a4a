//! A front end for ZooKeeper's clients, without sockets and without a clock.
//!
//! A host passes it inputs: connections that open and end, the bytes that arrive on them, and
//! ticks. It returns chunks to be sent. It works over any service of one tree (`ztree_service`),
//! and makes the calls of all connections on that tree, one after the other.
//!
//! `specs/` says exactly what each input does. `Front::take_made` returns the updates to be stored.
//!
//! # Why
//!
//! Calls are made one after the other, so all connections' calls have one order, that of the log.
//! Each call returns its reply at once, or the front has run out of memory. So nothing is in flight
//! between two inputs, and each definition speaks of one tree and the tables.
#![tactic(auto)]

mod asking;
mod beginning;
mod ends;
mod front;
mod greeting;
mod inner;
pub mod limits;
mod looking;
mod reading;
mod requests;
mod rows;
mod ticking;
mod walking;
mod word;
mod words;

pub use front::Front;
pub use zalloc::Memory;
pub use zconnections::buffers::{Chunk, Input};
pub use zpasswords::Secret;
pub use zrequests::{Terms, TickLength};
pub use zresponses::Clock;
pub use zwatches::WatchLimits;
