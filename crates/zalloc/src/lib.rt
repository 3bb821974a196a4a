//! The error for out of memory, shared by every layer.
//!
//! The lowest crate of the wing "tree": the data model and what each call does to it, without any
//! storage. Continue with `zpath` (paths), then `ztree` (nodes, sessions and the plain tree), then
//! `zcalls` (calls, replies and the sequential specification).
#![tactic(auto)]

mod memory;

pub use memory::Memory;
