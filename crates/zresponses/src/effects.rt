//! The effect of the service's replies on a server for ZooKeeper's clients.
//!
//! `answer` sends the answer to a request, after the events of its calls and the watches that it
//! sets. `welcome` and `come_back` answer connect requests. `look` sends the events of watched
//! nodes that a tick or the end of a session deleted. All of it changes only the tables: it knows
//! no socket, no clock and no tree. Each function does exactly what its definition in `specs/`
//! says.

mod absorbing;
mod again;
mod answering;
mod frames;
mod greeting;
mod looking;
mod replying;
mod rows;
mod seeing;
mod watching;
mod wish;
mod wishes;

pub use absorbing::absorb;
pub use answering::{Done, answer};
pub use greeting::{Granted, come_back, is_ahead, turn_away, welcome};
pub use looking::look;
pub use replying::reply;
