//! The inputs of a server, the partial frames of its connections, and the chunks to be sent.
//!
//! Bytes that a server reads are stored in streams until they form whole frames. Bytes that it
//! writes are queued in order in an outbox. `specs/Inputs.antt`, `specs/Streams.antt` and
//! `specs/Outbox.antt` define these.

mod chunk;
mod input;
mod outbox;
mod phase;
mod rows;
mod stream;
mod streams;
mod table;

pub use chunk::Chunk;
pub use input::Input;
pub use outbox::Outbox;
pub use phase::Phase;
pub use stream::Stream;
pub use streams::Streams;
