//! Laws of a front end for ZooKeeper's clients (`zfront`) behind a guard (`zguard`), whatever its
//! steps are.
//!
//! It is definitions and laws alone. `specs/Inputs.antt` says what the guard passes of each input,
//! and what it adds to chunks; `specs/Runs.antt` has runs of both. The law is that each call of a
//! request came of a connection that had given a login. Of any other one frame is read at most, a
//! connect request, and it makes no call but one that opens a session.
#![tactic(auto)]

pub mod laws;
mod rows;
