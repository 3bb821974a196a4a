//! Answers to ZooKeeper's clients, from the replies of this service.
//!
//! `answer_to` returns the code and the body for a request, from its calls and the replies to them
//! (`answer_in`, `specs/Answering.antt`). `stat_reported` is the stat of eleven fields. All of it
//! is pure: it knows no connection, and of the service's state only the zxid and the tick that it
//! is given. `told` is a zxid as clients are told it, and `named` a request as the tree has it.
//! `refused_answer` reads the service's own nodes, `/zookeeper` and below.
//!
//! # Why
//!
//! The stat of a create2 needs no second call: the node is as the create made it, at the last zxid.
#![tactic(auto)]

mod answer;
mod answering;
mod answers;
mod clock;
pub mod effects;
pub mod laws;
mod naming;
mod numbers;
mod own;
mod parts;
mod results;
mod rows;
mod stats;
mod texts;

pub use answer::Answer;
pub use answering::answer_to;
pub use clock::{Clock, Now};
pub use naming::named;
pub use numbers::told;
pub use own::{OwnNode, refused_answer};
pub use stats::{made_stat, stat_reported};
pub use texts::path_reported;
