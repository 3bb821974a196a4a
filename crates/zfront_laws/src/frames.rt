//! The chunks of each connection of a front end for ZooKeeper's clients (`zfront`), whatever tree
//! it began with and whatever its inputs are.
//!
//! Each connection gets the connect response, then one whole frame for each request, in order,
//! under its xid (`specs/Laws.antt`). Each law is the contract of a function whose body does
//! nothing.

pub mod laws;
mod rows;
