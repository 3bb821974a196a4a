//! A server for ZooKeeper's clients whose changes are durable. Changes of a front end are written
//! as one block of a file, and only then acknowledged. A service that is opened again begins with
//! the tree that its file holds.
//!
//! A file has parts, of which the last one grows. A service whose file has become long begins a new
//! part (`split`). Another process then replaces the parts before it with a snapshot alone
//! (`Stored::compact_beginning`). The file holds the same tree before and after, whatever the
//! service has appended meanwhile (`laws`).
//!
//! The limits of the tree are chosen at each opening. Where the file has others, it is compacted
//! before the service begins, with the chosen ones.
//!
//! ```text
//! let opened = DurableFront::open(alloc, device, first, secret, terms, now_ms, watches, limits)?;
//! let Opened { mut kept, .. } = opened;
//! kept.take(Input::Came(connection, bytes))?;
//! kept.commit()?;    // what it changed is durable
//! while let Some(chunk) = kept.next_chunk() { .. }    // and is sent
//! ```
//!
//! It works over any `Device` (zjournal), whose law says what a crash may leave. At each moment a
//! crash leaves the acknowledged changes, and those in flight as a whole or not at all (`commit`).
//! So all calls that were acknowledged across restarts are in one log, whose replies are those of
//! one plain tree. Where limits change, the log has parts (`laws`).
//!
//! # Why
//! The file holds updates alone: queries change nothing. No reply is stored, since a client with a
//! request in flight opens a new connection after a crash anyway.
#![tactic(auto)]

mod beginning;
mod chunks;
mod compaction;
mod fault;
mod inputs;
mod kept;
pub mod laws;
mod looking;
mod opened;
mod restored;
mod rows;
mod stored;
mod within;
mod writing;

pub use fault::{DurableFault, OpenFault};
pub use kept::DurableFront;
pub use looking::{Looked, folder_stat, look};
pub use opened::Opened;
pub use stored::Stored;
pub use zfront::{Chunk, Input, Secret, Terms, TickLength, WatchLimits};
pub use zprotocol::ServerId;
pub use zsnapshots::export::FolderStat;
pub use zsnapshots::folder::Found;
pub use ztree_service::{LimitFault, TreeLimits};
