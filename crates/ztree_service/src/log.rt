//! Logs of the calls that one tree served, and of successive incarnations.
//!
//! This crate holds definitions and laws only: `specs/Logs.antt` and `specs/Incarnations.antt`. One
//! such log explains a front for ZooKeeper's clients. Another explains a folder across all
//! restarts.

pub mod laws;
mod rows;
