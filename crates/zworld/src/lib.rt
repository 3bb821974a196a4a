//! The world as a program: all processes in one thread, one event at a time, with the history of
//! what callers saw.
//!
//! It consumes events (calls, deliveries, failures, joins, orders to leave), and produces the
//! history of calls and responses. Each event does what the definition of the world says. Whatever
//! the events are, the history is linearizable: that is the promise of the whole chain, and a
//! clause of `World`'s calls.
//!
//! # Why
//!
//! A failed server is dropped with all that it held, and messages to it are dropped. So a failure
//! allocates nothing, and a client that asks a dead head again and again fills no channel.
//!
//! There are always 32 client cores. Those beyond the world's own know no chain, so a message to
//! one needs no invariant that rules it out.
#![tactic(auto)]

mod calls;
mod deliveries;
mod did;
mod failures;
pub mod links;
mod opening;
mod orders;
mod post;
mod processes;
mod settling;
mod world;

pub use did::{Did, IdleCause};
pub use world::World;
