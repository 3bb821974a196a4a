//! What command line programs share: the numbers of their options, and the report of a fault.
//!
//! `numbers_asked` reads `zk NAME [--OPTION N] ..` with `clap`. Its result is an exact function of
//! the words, `asked_of` (specs/Asked.antt), by what `clap` specifies of its parse. An `Err` is out
//! of memory. `refuse` reports why words are no command, and returns the exit status.
//!
//! # Why
//!
//! No subcommand, an option given twice and a request for help are all bad words: status 2. How a
//! number is spelled (`+1`, `01`) is left to `clap`'s reader of integers.
#![tactic(auto)]

mod asked;
mod fault;
mod line;
mod options;
mod reporting;
pub mod rows;

pub use asked::numbers_asked;
pub use fault::WordsFault;
pub use options::NumberOption;
pub use reporting::{refuse, tell};
