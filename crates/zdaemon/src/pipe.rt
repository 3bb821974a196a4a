//! The protocol of the two pipes between a host and a server that makes its changes durable.
//!
//! The host sends a secret and what logins there are, and then messages: the inputs of the server,
//! and the demand that all of it is committed. The reply is chunks to be sent, and an end after
//! them. Messages and answers are records of bytes. `specs/Messages.antt` and `specs/Outputs.antt`
//! define them.
//!
//! `read_secret` reads the secret, `read_logins` the logins' text, and `next_message` the first
//! message of some bytes. `put_chunk` and `put_end` write an answer. `serve_all` is the loop over
//! both for a `Service`: it commits before it sends a chunk.
//!
//! # Why
//! Pipes, not a socket or shared memory: each end waits for the other anyway, and a closed pipe
//! shows that the other process has ended. An answer's end is a record, so the host knows that
//! nothing more comes; the first one says that the folder is open.

mod fault;
mod filling;
pub mod laws;
pub mod limits;
mod logins;
mod message;
mod reading;
mod rows;
mod secret;
mod service;
mod serving;
mod writing;

pub use fault::ServeFault;
pub use logins::read_logins;
pub use message::Message;
pub use reading::next_message;
pub use secret::read_secret;
pub use service::Service;
pub use serving::serve_all;
pub use writing::{put_chunk, put_end};
pub use zcodec::Fault;
pub use zconnections::buffers::{Chunk, Input};
pub use zpasswords::Secret;
