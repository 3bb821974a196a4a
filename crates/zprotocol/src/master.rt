//! The master's protocol: it learns of failures, repairs the chain, and obeys orders: to let a
//! server join, and to order a member to leave. Here are the orders and their faults, the laws of
//! the master table, and worked examples.
//!
//! # Why
//!
//! The used numbers are a rising list in the definition, so the master's view computes and stays a
//! plain record. The code may store them in any way that is seen as this list.

pub mod laws;
mod order;
mod order_fault;
mod rows;

pub use order::Order;
pub use order_fault::{JoinFault, OrderFault, RetireFault};
