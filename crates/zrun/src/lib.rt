//! The service in threads.
//!
//! A cluster has a thread for each server and one for the master. Its clients are owned by their
//! callers' threads. Joining it returns the traces of all processes, for the audit. Both ends of
//! each channel are then in one thread, and show that what was received is a prefix of what was
//! sent: so the traces are lawful. An untraced cluster has no traces, and can run indefinitely.
//!
//! All that its callers name is exported here: calls and replies, paths and data, numbers, and one
//! `Fault`.
#![tactic(auto)]

mod asking;
mod client;
mod clients;
mod cluster;
mod fault;
mod faults;
mod gates;
mod gathering;
mod joining;
mod keeping;
mod knowing;
mod opening;
mod patience;
mod posts;
mod promises;
mod starting;
mod supply;
mod ticker;
mod ticks;
mod untraced;

pub use asking::TURNS;
pub use client::Client;
pub use clients::Clients;
pub use cluster::Cluster;
pub use fault::Fault;
pub use faults::{StartFault, Unanswered};
pub use gates::open_gates;
pub use patience::Patience;
pub use promises::HandsBack;
pub use ticker::Ticker;
pub use ticks::Ticks;
pub use untraced::Untraced;
pub use zalloc::Memory;
pub use zcalls::{
    Call, Check, ClientId, Create, Data, DataFault, Delete, Expected, Kind, Lifetime, Multi, Part,
    PartReply, Query, Refusal, Reply, SessionId, SetData, Stat, Ttl, Update,
};
pub use zchannels::console::{Closed, Console};
pub use zchannels::outcome::OrderOutcome;
pub use zclient::BeginFault;
pub use zpath::{Path, PathFault};
pub use zprotocol::traces::Stamp;
pub use zprotocol::{JoinFault, Order, OrderFault, RetireFault, ServerId};
pub use zthreads::{Gate, Open};
