//! The world of all processes, its runs and their histories, and what it means that a history is
//! linearizable: definitions.
//!
//! It consumes events (calls, deliveries, failures, joins, retirements), and produces a history of
//! calls and their responses. The world and its events are in `specs/World.antt` and
//! `specs/Events.antt`, over the tables of servers, master and clients, and over any machine. The
//! legal order of a history is in `specs/LegalOrder.antt`, which knows nothing of chains. The rows
//! are worked examples of the definitions, and the laws say what holds of them in every run.
//!
//! # Why
//!
//! What one process does is defined once (`does`, specs/Does.antt), for events and for rows of
//! traces. It is in this crate, since what callers see is a history, and histories are defined
//! here.
//!
//! Whether a process accepts an input is a test beside it (`accepts`). So `does` needs no case for
//! what is refused, and an event is enabled by the test by which a trace's row is valid.
//!
//! The linearization is over any service, so its examples can use one that computes, a counter.

mod event;
mod history;
pub mod laws;
mod outcome;
mod rows;
mod settled;

pub use event::Event;
pub use history::CallEvent;
pub use outcome::Outcome;
pub use settled::Settled;
