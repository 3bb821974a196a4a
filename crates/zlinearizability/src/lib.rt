//! Why every history of the chain is linearizable: the promise itself (`laws`), and facts of logs,
//! tails and replies besides it (`facts`). Each is a function whose body does nothing and whose
//! contract is the law. The facts of a chain that every event preserves are in `chain`. That each
//! event preserves them is in `servers`, `clients` and `master`, and the legal order that follows
//! is in `legal`. The rows are worked runs in which channels lose their ends.
//!
//! This is the lowest crate of the wing "the world and its theorem": the proof that a chain is
//! linearizable, and a world that runs one. The definitions are in `zprotocol::world`, the argument
//! is in docs/PROOF.md. Continue with `zworld::links`, the channels, and `zworld`, the program with
//! the theorem.
#![tactic(auto)]

pub mod chain;
pub mod clients;
pub mod facts;
pub mod laws;
pub mod legal;
pub mod master;
mod rows;
pub mod servers;
