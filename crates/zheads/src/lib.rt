//! The heads of a chain, as the front end uses them: what all of them acknowledge is one plain
//! tree, in real time.
//!
//! A head executes each call on its own machine, and notes the reply. It acknowledges the call when
//! an entry has gone through the whole chain: of an update its own entry, of a query the entry
//! after it. The definitions are in `specs/Heads.antt` (the heads and their runs),
//! `specs/OneLog.antt` (one log that explains what callers saw) and `specs/Law.antt` (the promise).
//! The chain is that of `zprotocol::world`, with the cuts of `zlinearizability`.
//!
//! # Why
//!
//! An entry leaves Sent only by an acknowledgement that began at the tail, or because its server
//! became the tail. So no lease and no clock is needed, and no query goes down the chain.
//!
//! A note names no epoch. The number of a server is used once, so a head that failed never returns
//! under its number. Each acknowledgement in flight is of a committed entry, in whatever epoch it
//! was sent.
//!
//! A query waits for the next entry, whatever it is. So a batch of queries needs one empty entry,
//! and none if an update follows.
#![tactic(auto)]

pub mod laws;
mod rows;
