//! The state of a data folder as text: a tree.
//!
//! A tree changes by entries, and an entry is an update. Its text is lines of records: a snapshot
//! or none, and entries after it. `read` reads the tree that a text represents. `Compaction` writes
//! a snapshot, chunk by chunk.
//!
//! ```text
//! let Found { mut tree, .. } = read(alloc, text)?;
//! let (reply, update) = tree.apply(update)?;
//! add_entry(&mut records, update)?;
//! let mut compaction = Compaction::new(alloc, &tree)?;
//! while let Some(chunk) = compaction.next_chunk()? { .. }
//! ```
//!
//! A text represents one tree, and what is written is read back (`laws`). Passwords of sessions
//! among the records of a text have no effect, and none are written.
//!
//! The definitions: `specs/States.antt` (what an entry does), `specs/Texts.antt` (snapshots, and
//! which text represents which tree), `specs/Entries.antt` (entries as text).
//!
//! # Why
//! A snapshot is lines of records, too: each row in base64, since no block of a journal holds a
//! byte 0. So a journal has one form, whether it was compacted or not.

mod compaction;
mod entries;
mod fault;
mod found;
mod front_reading;
pub mod laws;
mod reading;
mod rows;

pub use compaction::Compaction;
pub use entries::add_entry;
pub use fault::ReadFault;
pub use found::Found;
pub use reading::read;
