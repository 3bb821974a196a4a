//! What threads share: atomic words, channels, and the console's orders.
//!
//! Tickets are numbers that threads draw, no number twice. Halts are bits that are never cleared.
//! Each of their calls is one atomic step on one shared word. `rings` has a channel between two
//! threads: an outbox, and a ring with one writer and one reader. No call on these takes a handle
//! of `Wait`, so none blocks. A mesh has such a channel from each of n processes to each, itself
//! included.
//!
//! The console's channel is bounded, and first in, first out. The console orders servers to join
//! and to leave, and the master's thread receives the orders. The master returns the outcome of
//! each order on a ring.
//!
//! # Why
//!
//! There is a channel from each process to each, even to itself. So a channel's end needs to know
//! nothing but the index of its process.
#![tactic(auto)]

pub mod bells;
pub mod console;
pub mod halt_rule;
pub mod halts;
pub mod hand;
pub mod limits;
pub mod looks;
mod mesh;
pub mod outcome;
mod reporting;
pub mod rings;
pub mod rows;
pub mod rule;
pub mod tickets;

pub use mesh::{Mesh, weave};
pub use reporting::are_reported;
