//! Servers receive messages from servers and clients: each event preserves the facts of a chain.

pub mod laws;
