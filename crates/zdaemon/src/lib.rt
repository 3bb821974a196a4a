//! A server for ZooKeeper's clients whose host is another process: its words, and its run without
//! the devices.
//!
//! `hosted_settings` reads the words. `hosted_command` reads the secret, opens a front end in
//! memory or with a folder, takes the messages that are read, and reports a fault in one line. Or
//! it does a task on a folder that no server has open: it compacts its journal, exports its tree as
//! a script, or prints its size.
//!
//! If the host names logins, a guard is put before the front end (`Guarded`).
//!
//! A front end in memory, and one with a folder in an `InFolder`, are services for
//! `crate::pipe::serve_all`. The inputs up to a demand are a batch, and it is committed before a
//! chunk of it is sent.
//!
//! # Why
//! A batch is the input of one wait for events. So one commit serves all clients that ask at once,
//! no request waits for a second one, and there is no timer.
#![tactic(auto)]

mod at_rest;
mod base;
mod fault;
mod folder;
mod guarded;
pub mod laws;
mod memory;
mod mending;
pub mod pipe;
mod program;
mod rows;
mod tasks;
mod words;

pub use fault::HostedFault;
pub use folder::InFolder;
pub use guarded::Guarded;
pub use program::hosted_command;
pub use words::{FolderSettings, HostedSettings, hosted_settings};
