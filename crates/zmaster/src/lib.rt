//! The master: it learns of failures, repairs the chain, adds servers to it, and orders them to
//! leave.
//!
//! It consumes messages, and orders: that a server join or leave. It produces messages to servers
//! and clients. Each function is one row of the master table. The payload of a `Snapshot` is a type
//! parameter: the master never looks at it. It allocates nothing: servers are few, and the caller
//! reserves room for what is sent.
#![tactic(auto)]

mod chain;
mod knowledge;
mod limits;
mod master;
mod member;
mod used;
mod worked;

pub use limits::MAX_POSTS;
pub use master::Master;
pub use zprotocol::{JoinFault, Order, OrderFault, RetireFault};
