//! A process in a thread of its own: its endpoint, the loops of the servers' threads and of the
//! master's, and a client that its caller's thread owns.
//!
//! The endpoint (`Endpoint`) has channels, trace, timestamp, and the messages that aren't on their
//! channels yet. It has one invariant: the process followed its table from the initial state
//! through its trace. What was received from each channel, and sent on it, is what the process's
//! steps received and sent.
//!
//! A `Host` is a process with its endpoint, whichever kind it is. It gives the process its inputs,
//! and each input is one event of the endpoint. Servers, the master and clients are built on it.
//!
//! A thread owns one value with that invariant, and its loop only calls it. A thread receives a
//! message only after a look at the halt's bits that found neither the run ended nor its server
//! halted. The master returns the outcome of each order to the console. No call of a client blocks.
//!
//! # Why
//!
//! Each call of an endpoint promises an implication over all states of its process (`Stands`). So
//! the promises compose, and no ghost value is passed.
#![tactic(auto)]

mod acting;
mod asking;
mod caller;
mod endpoint;
mod events;
mod gate;
mod hearing;
mod host;
mod idle;
mod limits;
mod links;
mod master_thread;
mod note;
mod owed;
mod posting;
mod presiding;
mod resting;
mod rounds;
mod server_thread;
mod serving;
mod worked;

pub use caller::Caller;
pub use endpoint::{Ending, Endpoint, Stamped};
pub use gate::{Gate, Open};
pub use limits::{MAX_EVENTS, limits_are_numbers};
pub use master_thread::MasterThread;
pub use presiding::preside;
pub use server_thread::ServerThread;
pub use serving::serve;
pub use worked::orders_have_outcomes;
