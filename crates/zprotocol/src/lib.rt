//! The protocol of chain replication: the processes, their messages, and what each kind of process
//! does with a message. This crate has the types and the definitions.
//!
//! A process receives a message with its sender, or a request of a caller or an operator. It sends
//! messages with their receivers, in an `Out`. The three tables are `specs/server/Table.antt`,
//! `specs/master/Table.antt` and `specs/client/Table.antt`.
//!
//! This is the lowest crate of the wing "chain": the protocol, the code of each process, and the
//! actor that runs any of them. Continue with `zclient`, `zmaster` and `zserver`, which implement
//! the tables, and then with `zactor`. `zprotocol::world` joins the processes into one world.
//!
//! # Why
//!
//! The tables are over a machine given as a record (`Does`), made of any sequential service. The
//! proof runs over the same service as the linearization, so the two can't drift apart.
//!
//! Numbers are natural numbers in the definitions and types with a range in the code. Each type is
//! seen as its number.
#![tactic(auto)]

pub mod client;
mod epoch;
mod limits;
mod log_number;
pub mod master;
mod message;
mod out_list;
mod place;
mod process;
pub mod server;
mod server_id;
pub mod traces;
pub mod world;

pub use client::BeginFault;
pub use epoch::Epoch;
pub use limits::{MAX_EPOCH, MAX_LOG_NUMBER, MAX_SERVERS, PROCESSES};
pub use log_number::LogNumber;
pub use master::{JoinFault, Order, OrderFault, RetireFault};
pub use message::Message;
pub use out_list::Out;
pub use process::Process;
pub use server_id::ServerId;
pub use zcalls::{CallNumber, ClientId};
