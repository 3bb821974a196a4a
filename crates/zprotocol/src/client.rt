//! The client's protocol: it numbers its calls, sends them to the chain, and resends them. Here are
//! the faults of invoking a call, the laws of the client table, and worked examples.
//!
//! # Why
//!
//! The client table returns a reply with its call's number, because a history names it.

mod begin_fault;
pub mod laws;
mod rows;

pub use begin_fault::BeginFault;
