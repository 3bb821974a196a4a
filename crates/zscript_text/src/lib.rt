//! The text of the script: a line is parsed into a call or an event of the chain, and a reply is
//! written as text.
//!
//! `read_line` parses a line, and `write_reply` writes a reply. The definitions are `line_of`
//! (`specs/Line.antt`) and `reply_text` (`specs/Reply.antt`).
//!
//! # Why
//!
//! `;` and other marks are words like any others: one where a path or data is expected is read as
//! such. Data is what the `base64` crate's standard engine encodes and decodes. A test shows that
//! its alphabet is RFC 4648's.
#![tactic(auto)]

mod cursor;
pub mod laws;
pub mod limits;
mod line;
mod line_reading;
mod part_reading;
mod part_words;
mod reading;
mod reply;
mod request;
mod rows;
mod shape;
mod spaced;
mod stat_text;
mod words;

pub use line::Line;
pub use line_reading::read_line;
pub use reply::write_reply;
pub use request::{LineFault, Request};
