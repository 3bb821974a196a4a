//! Requests of ZooKeeper's clients, as calls of this service.
//!
//! The wing "ZooKeeper's clients" begins with this crate: a server over one tree (`ztree_service`)
//! that ZooKeeper's own clients connect to. This crate reads their requests, and `zresponses` makes
//! the answers. Continue with `zfront`, the front end, which handles each input and joins the
//! parts.
//!
//! `calls_of` returns the calls that a request makes, or why it makes none (`calls_in`,
//! `specs/Requests.antt`). Its `Terms` are what the server accepts, chosen when it starts.
//! `code_of` returns the error code for a refusal. `ticks_asked` and `millis_reported` convert
//! session timeouts to ticks and back. All of it is pure: it knows no connection, no session but the
//! one given, and no state of the service.
//!
//! # Why
//!
//! `digest` is accepted and ignored: clients send it unasked, and the open ACL needs no identity.
#![tactic(auto)]

mod calls;
mod codes;
mod fault;
pub mod laws;
pub mod limits;
mod lists;
mod nodes;
mod requests;
mod rows;
mod terms;
mod tick;
mod timeouts;
mod words;

pub use calls::Calls;
pub use codes::code_of;
pub use fault::Unasked;
pub use limits::{ALL_PERMISSIONS, NO_VERSION};
pub use nodes::refused_part;
pub use requests::calls_of;
pub use terms::Terms;
pub use tick::TickLength;
pub use timeouts::{millis_reported, ticks_asked};
