//! What a server logs, as lines of text: the changes of its tree, the passwords of sessions, the
//! orders of the chain's operator, and the rows of snapshots.
//!
//! `write_records` appends records to a log's text, and `next_record` and `read_records` read them
//! from it. A line is a record's bytes in base64, and an LF. So a log has no byte 0, and a log
//! followed by another is a log.
//!
//! Parts of records can be read and written on their own: `update_of`, `put_update` and the like.
//! Messages between processes have the same parts, so a call has one spelling.
//!
//! The definitions: `specs/Records.antt` (lines, and the bytes of records), `specs/Calls.antt` and
//! `specs/Fields.antt` (the bytes of a record's parts), `specs/Laws.antt`.

mod call_reading;
mod call_writing;
mod fault;
mod field_reading;
mod field_writing;
pub mod laws;
pub mod limits;
mod reading;
mod record;
mod record_reading;
mod record_writing;
mod row;
mod rows;
mod writing;

pub use call_reading::update_of;
pub use call_writing::put_update;
pub use fault::RecordFault;
pub use field_reading::{content_of, path_of, path_with};
pub use field_writing::{put_content, put_path};
pub use limits::MAX_ROW_BYTES;
pub use reading::{next_record, read_records};
pub use record::Record;
pub use record_reading::server_at;
pub use record_writing::put_server;
pub use row::Row;
pub use writing::write_records;
