//! A table of watches, for a front end that serves ZooKeeper's clients.
//!
//! A watch belongs to a connection, and waits for changes of one kind at one path: for the next, or
//! for each. A recursive watch waits for those below its path, too. An event at a path fires the
//! watches that wait for it. Their connections are notified, each once, and those that wait for one
//! change are removed. The parent of the node has an event of its own.
//!
//! The end of a session deletes nodes, and its reply doesn't name them. So a front asks of each node
//! that existed before whether its deletion is awaited, and checks which of those are gone.
//!
//! The table is a tree by path, and within a path by kind and connection. Beside it there are a
//! tree of each connection's paths, and how many watches each has: there is a limit of each
//! connection's watches, and one of all together. So a call takes time by the watches that it sets,
//! notifies or removes, and hardly by how many others there are.
//!
//! Contracts see a table as a set of watches (`specs/Watches.antt`). `specs/Events.antt` defines
//! which watches an event fires and whom it notifies, `specs/Removal.antt` which watches a request
//! removes, and `specs/Limits.antt` what the limits come to.
#![tactic(auto)]

mod by_connection;
mod by_path;
pub mod changes;
mod counted;
mod fault;
mod firing;
mod kind;
pub mod laws;
mod limits;
mod removal;
mod rows;
mod setting;
mod shares;
mod slot;
mod watch;
mod watches;

pub use fault::WatchFault;
pub use kind::Kind;
pub use limits::WatchLimits;
pub use watch::Watch;
pub use watches::Watches;
