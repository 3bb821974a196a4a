//! Shared by tests: numbers of processes, calls and entries by literals, and reports of stories of
//! refused memory.
#![tactic(auto)]

mod ended;
mod numbers;
mod reporting;

pub use ended::Ended;
pub use numbers::{call_number, client, epoch, log_number, server};
pub use reporting::{report_end, tell};
