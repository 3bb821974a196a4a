//! A tree as a script, and a folder in numbers.
//!
//! `write_export` writes the lines that make a tree again, line by line, to a `Sink`. `counts`
//! counts the nodes, bytes and sessions of a tree. So a program can print what no line makes
//! (`write_left_out`), and how large a folder is (`write_stat`).
//!
//! The definitions: `specs/Export.antt` (the lines of a tree), `specs/Counts.antt` (the numbers),
//! `specs/Texts.antt` (how they are printed). Played from the initial tree on, the lines make the
//! tree again, as far as lines can say it (`laws`). That is so of a tree within the limits of a
//! script: a script refuses the lines of more nodes, or of longer data.
//!
//! # Why
//! What an export leaves out is printed on standard error, since each line of a script is answered
//! and none is a comment. Ephemeral nodes are left out, since their sessions are. The limits of the
//! tree are left out, and how often access control lists were written: no line says them.

mod export;
mod fault;
pub mod laws;
mod line;
mod rows;
mod stat;
mod tally;

pub use export::write_export;
pub use fault::ExportFault;
pub use stat::{FolderStat, write_left_out, write_stat};
pub use tally::{TreeCounts, counts};
pub use zops::Machine;
