//! The traces that the threads of a run return, and what makes them lawful: types and definitions,
//! with their laws.
//!
//! A trace is the list of what one process did, each event with a Lamport timestamp. The traces of
//! all processes, merged by timestamps, are a list of events of the world.
//!
//! # Why
//!
//! A row of a trace (`row_of`, specs/Deeds.antt) is read off `does`, but for three things that the
//! world's events don't say. A server without memory records the message at which it stopped, or
//! the query that it dropped. The order to leave has an act of its own, and a refused order is
//! recorded, too.
//!
//! Only traces ask whether a process is one of the world's servers or clients (`takes_part`).
//!
//! The merge of traces is a relation (`Merges`). That there is exactly one merge is a law.

mod laws;
mod stamp;
mod trace;
mod worked;

pub use stamp::{MAX_STAMP, Stamp};
pub use trace::{Act, ClientTrace, Trace, TraceEvent, Traces};
