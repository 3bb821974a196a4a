//! Tests of the master's log: entries are written, read again and played by each node's replica.
//!
//! They test what no clause says: each call that allocates can succeed.
#![tactic(auto)]

#[cfg(test)]
mod story;
