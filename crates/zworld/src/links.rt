//! The channels between the processes: one queue of messages for each ordered pair of them.
//!
//! A message that is sent goes last, and the front is delivered. So a channel neither loses nor
//! repeats messages, and preserves their order. `Links` stores only the queues with messages in
//! flight, in the order of delivery, so delivery skips the others. A server's failure notice, its
//! last message, is stored apart, so that a server can send it when out of memory. The payload of a
//! `Snapshot` is a type parameter.
//!
//! # Why
//!
//! Clauses see all channels as a function that reads the list (`links_of`), so nothing above knows
//! of indices.

mod links;
mod notices;
mod queue;
mod rows;
mod search;
mod turn;

pub use links::Links;
pub use turn::Turn;
