//! The guard before a server for ZooKeeper's clients: who gives no login makes no call.
//!
//! It takes the bytes of each connection, and returns those that the server may read. The first
//! frame, the connect request, passes: it opens a session, and ZooKeeper's clients name themselves
//! only after it. The next frame has to be an auth of the scheme `digest` with the `user:password`
//! of a login. Then all passes. Any other frame is answered by its refusal, and the connection is
//! closed, as ZooKeeper does that enforces `digest` (`enforce.auth.schemes`).
//!
//! The definitions: `specs/Judging.antt` (what a frame of a stranger brings), `specs/Guarding.antt`
//! (what passes, and what is sent at a close), `specs/Laws.antt`.
//!
//! # Why
//!
//! The guard reads before the server, whose laws speak of the bytes that it gets. So these laws
//! stand as they are, and a server without logins has no guard.
#![tactic(auto)]

mod guard;
mod heard;
mod hearing;
mod judging;
pub mod laws;
pub mod limits;
mod passed;
mod rows;
mod verdict;
mod visitor;
mod visitors;

pub use guard::Guard;
pub use passed::Passed;
pub use visitor::Standing;
pub use zalloc::Memory;
pub use zlogins::{Logins, LoginsFault};
