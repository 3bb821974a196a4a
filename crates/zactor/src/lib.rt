//! A process of the chain, whichever kind it is: the master, a server or a client.
//!
//! It receives an input: a message with its sender, or something from outside. It sends messages
//! with their receivers, in an `Out`. What callers see is returned, with a reply in a slot that the
//! caller lends. Each input does what the definition says (`does` of the world's model). Nothing
//! here knows channels, threads or time.
//!
//! # Why
//!
//! Whatever runs processes calls one function, whose contract is `does`: the world, a thread, or a
//! process of its own.
//!
//! The runner sends the failure notice of a server that stops. A server may stop because memory ran
//! out, and then its list of outgoing messages can't grow.
#![tactic(auto)]

mod act_fault;
mod actor;
mod calls;
mod done;
mod handed;
mod hearing;
mod input;
mod kind;
mod orders;
mod refusal;
mod refusing;
mod rows;
mod stopping;

pub use act_fault::ActFault;
pub use actor::Actor;
pub use done::Done;
pub use handed::Handed;
pub use input::Input;
pub use refusal::Refusal;
