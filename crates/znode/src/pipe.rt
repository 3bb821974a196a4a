//! The protocol of the two pipes between a host and a node.
//!
//! The host sends inputs, and the reply to each turn is what it is to do, and an end after it. Both
//! are records of bytes. `specs/pipe/Inputs.antt` and `specs/pipe/Outputs.antt` define them.
//!
//! `next_input` reads the first input of some bytes. `put_send` and the like write an answer.
//! `serve_node` is the loop over both for a `Node`.
//!
//! # Why
//! Only a turn is answered. So the host can send all that came in one write, and knows where the
//! answer ends.

mod input;
pub mod laws;
mod reading;
mod rows;
mod serving;
mod writing;

pub use input::NodeInput;
pub use reading::next_input;
pub use serving::serve_node;
pub use writing::{put_append, put_end, put_send, put_status};
pub use zcodec::Fault;
