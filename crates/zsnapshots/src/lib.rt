//! The rows of a snapshot: the whole state of a machine as bytes, row by row.
//!
//! They are a header, the root, the sessions by id, the other nodes by path, and the cached replies
//! by client. A row is a frame of its own (`zwire`), so that no buffer has to hold a state. The
//! header has the limits of the tree, so it is read back within the same limits.
//!
//! `Writing` returns the rows of a machine in order, or those of its tree alone. `RowKeys` borrows
//! no machine, and writes a row by its number. `Reading` takes one row at a time, and returns the
//! machine at the end, or says which row has which fault. `Loading` does the same where each row
//! has bytes of its own.
//!
//! The next row of a state that a machine wrote is never refused, unless memory runs out. Whatever
//! the bytes are, what is read in the end is a machine whose own rows they are.
//!
//! The definitions: `specs/States.antt` (the rows of a state, and why bytes aren't one),
//! `specs/Rows.antt` (the bytes of each row), `specs/Laws.antt`.
//!
//! # Why
//! Rows rise within their kind, and the root comes before the sessions, so a state has one text. A
//! row out of order has another fault than one that can't be in a state: it is the writer's
//! mistake.
#![tactic(auto)]

pub mod export;
mod fault;
pub mod folder;
mod head;
mod header;
pub mod laws;
mod limits;
mod loading;
mod node_reading;
mod node_writing;
mod order;
mod reading;
mod row_keys;
mod row_reading;
mod row_writing;
mod rows;
mod text_reading;
mod text_writing;
mod writing;

pub use fault::RowFault;
pub use header::Header;
pub use limits::MAX_ROW;
pub use loading::Loading;
pub use reading::Reading;
pub use row_keys::RowKeys;
pub use row_reading::{read_header_row, read_node_row, read_reply_row, read_session_row};
pub use row_writing::{write_header_row, write_node_row, write_reply_row, write_session_row};
pub use writing::Writing;
