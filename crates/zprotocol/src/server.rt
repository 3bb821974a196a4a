//! The server's protocol, over any state machine: the laws of the server table, and worked
//! examples.

pub mod laws;
mod rows;
