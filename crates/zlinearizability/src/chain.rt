//! The facts of a chain that every event preserves (`specs/chain/Sound.antt`). They are over the
//! log world and the account beside it (`specs/chain/Account.antt`). Here are what each step of a
//! server preserves, the initial state, and the laws on which those of all events rest.
//!
//! # Why
//!
//! The log world preserves what failed servers held (`run_keeping`). A member that failed is still
//! between its neighbours until the master has received its `Gone`, and the facts of order need its
//! log. A law of `zprotocol::world` joins this world to the definition.

pub mod laws;
mod rows;
