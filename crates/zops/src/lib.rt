//! The calls of the service, applied to a store; and the state machine that answers them.
//!
//! Consumes entries (updates with their client and number) and queries; produces replies.
//! `Machine::apply` is the entry step over the plain tree, by which an update acts once.
//! `Machine::ask` is the plain tree's reply to a query. `zcalls` defines both, independently of how
//! the machine stores its tree. A machine's state can be read as rows. `Restoring` makes a machine
//! from rows, or refuses a row that no such state has next.
#![tactic(auto)]

mod change;
mod kept;
pub mod laws;
mod limiting;
pub mod limits;
mod machine;
mod part;
mod query;
mod reading;
mod restoring;
mod rows;
mod run;
mod session_calls;
mod stop;
mod update;

pub use limits::MAX_APPLIED;
pub use machine::Machine;
pub use restoring::Restoring;
pub use zcalls::{
    Call, CallNumber, Change, ChangeReply, Check, Create, Delete, Entry, Expected, Kind, MAX_PARTS,
    MOST_PARTS, Multi, Names, Part, PartReply, Query, Refusal, Replies, Reply, SetAcl, SetData,
    SharedEntry, Update,
};
pub use zstore::{LimitFault, RestoreFault};
pub use ztree::{
    ClientId, Data, DataFault, Node, Session, SessionId, Stat, Term, TreeLimits, Ttl, Zxid,
};
