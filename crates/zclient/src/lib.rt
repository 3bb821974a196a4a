//! The core of a client: it numbers its calls, sends them to the chain, and sends them again.
//!
//! It consumes calls, messages and requests to retry. It produces messages to the head and the
//! tail, and replies. Each function is one row of the client table. The payload of a `Snapshot` is
//! a type parameter: a client never looks at it.
#![tactic(auto)]

mod client_core;

pub use client_core::ClientCore;
pub use zprotocol::BeginFault;
