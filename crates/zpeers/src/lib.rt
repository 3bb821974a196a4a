//! What a process sends to other processes, and receives from them, as records.
//!
//! A record is a tag, and then bytes after their length, so a carrier can cut a stream into records
//! without knowing more. A message is one record, its frame (`zwire`). A `Snapshot` is followed by
//! its state: a record for each row (`zsnapshots`), and then the end.
//!
//! `Outgoing` has a queue of messages for each receiver, and writes one record at a time. So a long
//! state holds up no other receiver. `Incoming` takes the records of each sender, and returns each
//! message once it is whole.
//!
//! For each receiver the records written, and then those that wait, are the records of the messages
//! put, in order. The records of messages, taken one by one, give exactly these messages.
//!
//! The definitions: `specs/Records.antt` (the records of a message), `specs/Outgoing.antt`,
//! `specs/Incoming.antt` (what a record does, and why it is refused), `specs/Laws.antt`.
//!
//! # Why
//! No message overtakes another to the same receiver: there is one queue, and only its first
//! message is written. What a sender has begun is stored for that sender alone.
#![tactic(auto)]

mod arriving;
mod fault;
mod heard;
mod incoming;
pub mod laws;
mod outgoing;
mod queue;
mod rows;
mod tags;
mod waiting;

pub use fault::PeerFault;
pub use incoming::Incoming;
pub use outgoing::Outgoing;
pub use tags::{END, FRAME, ROW};
