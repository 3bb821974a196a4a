//! The chain is repaired and extended. Servers receive the master's orders, the master learns who
//! is gone and who has what, servers join, and members are ordered to leave. Each event preserves
//! the facts of a chain.

pub mod laws;
