//! The audit of a run: its traces are replayed on one world, merged by their timestamps, and the
//! history is compared with what the clients saw.
#![tactic(auto)]

mod auditing;
mod deeds;
mod faults;
mod heads;
mod places;
mod records;
mod replaying;
mod sameness;
mod stamps;

pub use auditing::audit;
pub use faults::AuditFault;
