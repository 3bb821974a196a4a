//! Messages between processes, as bytes.
//!
//! A message goes from one process to another as a frame: a length, and that many bytes, which are
//! the sender, the receiver and the message. `write_frame` appends a frame to a stream.
//! `read_frame` reads the first frame, or reports that more bytes are needed. Each message has one
//! spelling.
//!
//! A `Snapshot` is spelled without its state, which may be far longer than a frame: the state
//! follows.
//!
//! The definitions: `specs/Frames.antt` (frames, and why bytes aren't one), `specs/Messages.antt`,
//! `specs/Replies.antt` and `specs/Fields.antt` (the bytes of their parts), `specs/Laws.antt`. The
//! bytes of calls are those of a log, `specs/Calls.antt` of `zwire::records`.
//!
//! For other texts with the same fields there are `put_client`, `client_at` and the like, and
//! `put_framed` and `cut_frame`: the rows of a snapshot (`zsnapshots`) are such texts.
//!
//! # Why
//! A frame begins with its length, so a reader knows how many bytes to wait for. A frame that is
//! cut is then never taken for one that is wrong.
#![tactic(auto)]

mod fault;
mod field_reading;
mod field_writing;
mod frame;
pub mod laws;
mod limits;
mod list_reading;
mod list_writing;
mod message_reading;
mod message_writing;
mod reading;
pub mod records;
mod reply_reading;
mod reply_writing;
mod rows;
mod writing;

pub use fault::{FrameFault, WriteError};
pub use field_reading::{call_number_at, client_at, five_at, log_number_at, three_at};
pub use field_writing::{put_call_number, put_client, put_log_number};
pub use frame::Frame;
pub use limits::MAX_FRAME;
pub use reading::{cut_frame, read_contents, read_frame, whole_of};
pub use reply_reading::reply_of;
pub use reply_writing::put_reply;
pub use writing::{put_framed, write_frame};
