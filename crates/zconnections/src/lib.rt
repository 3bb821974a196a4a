//! The state of a server for ZooKeeper's clients, without its tree.
//!
//! It holds the connections with their unread bytes, the sessions with their connections, the
//! watches, and the chunks to be sent. Each method does exactly what its definition in `specs/`
//! says. All of it is pure: it knows no socket, no clock, and no tree.
#![tactic(auto)]

pub mod attachments;
pub mod buffers;
mod closing;
mod connecting;
mod framing;
pub mod laws;
mod making;
mod reporting;
mod rows;
mod seating;
mod sending;
mod sweeping;
mod tables;
mod watching;

pub use tables::Tables;
