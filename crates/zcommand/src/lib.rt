//! The program `zk script` without its devices.
//!
//! `settings` reads the words with `clap`. `command` plays a script as they say, reports a fault in
//! one line, and returns the exit status.
#![tactic(auto)]

mod program;
pub mod rows;
mod words;

pub use program::command;
pub use words::settings;
