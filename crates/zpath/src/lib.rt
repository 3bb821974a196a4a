//! Absolute paths in a tree of named nodes.
//!
//! Consumes texts and produces paths: `Path::parse` returns the `Path`, or the first fault of the
//! text. A path is displayed as the one text that parses to it.
//!
//! The definitions: `specs/Grammar.antt` (what a path is), `specs/Faults.antt` (which fault a text
//! has), `specs/Numbered.antt` (how a sequential node is named). Contracts see a `Name` as its
//! bytes, and a `Path` as the list of its names.
#![tactic(auto)]

mod fault;
pub mod laws;
mod limits;
mod list;
mod name;
mod numbered;
mod path;
mod quick;
mod rows;
mod scan;
mod text;

pub use fault::PathFault;
pub use limits::{COUNTER_DIGITS, MAX_DEPTH, MAX_NAME_LEN, MAX_TEXT_LEN};
pub use name::Name;
pub use path::Path;
