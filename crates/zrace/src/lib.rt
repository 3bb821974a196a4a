//! The race: threads draw nodes by tickets, each with a client of its own. The run is audited at
//! its end. The crate also has the program's command `zk race`, without its devices.
//!
//! # Why
//!
//! `zk race` has a command of its own, so `command` of a script, with its theorem on all scripts,
//! takes no handle of threads. There are no traces before the join. So while clients race, what is
//! proved of a version is what its client's own record shows (`Shown`).
#![tactic(auto)]

mod command;
mod field;
mod keeping;
mod outcome;
mod plan;
mod racer;
mod racing;
mod reporting;
mod room;
pub mod rows;
mod runner;
mod words;

pub use command::race_command;
pub use outcome::Outcome;
pub use plan::{MAX_RACERS, MAX_ROUNDS, Race};
pub use racing::{Finish, race, run};
pub use words::race_settings;
pub use zrun::StartFault;
