//! Clients invoke calls, receive messages and send again, and servers fail: each event preserves
//! the facts of a chain.

pub mod laws;
