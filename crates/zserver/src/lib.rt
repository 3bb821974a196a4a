//! One server of the chain.
//!
//! It consumes a message with its sender, and produces messages with their receivers.
//! `Server::take` is the server table (`zprotocol`, `specs/server/Table.antt`) over the machine of
//! the service: the sequential specification with its cached replies. A server that runs out of
//! memory stops and sends nothing: to the others it has crashed. A query for which memory runs out
//! is ignored.
//!
//! # Why
//!
//! A server out of memory has sent nothing at that message, since all room is reserved first. The
//! machine applies its entry last, because that step alone can't be undone.
//!
//! No clause excludes that `Memory` is returned without cause: how much memory there is isn't in
//! any contract. Tests check that `Server::first` succeeds and that servers continue.
#![tactic(auto)]

mod accept;
mod join;
mod neighbour;
mod repair;
mod replica;
mod requests;
mod senders;
mod sent;
mod server;
mod snapshot;
mod stopped;
mod table;
mod taken;

pub use server::Server;
pub use snapshot::Snapshot;
pub use stopped::Stopped;
pub use taken::Taken;
