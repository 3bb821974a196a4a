//! Laws of the watches of every front end for ZooKeeper's clients (`zfront`), whatever tree it
//! began with, and whatever its steps are.
//!
//! A watch is notified of a change once, before an answer on its connection can show the change.
//! The one exception is the answer to the close of its session. An event has its cause in an
//! answered call, in a check of the tree, or in a request that sets a watch again.
//! `specs/Watching.antt` defines the allowed happenings, and `specs/Laws.antt` says that no others
//! happen. `specs/Limits.antt` says how many watches there are at most. The laws are the contracts
//! of functions whose bodies do nothing.

pub mod laws;
mod rows;
