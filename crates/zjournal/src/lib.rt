//! An append-only file of text batches, safe across crashes. Once `put` has returned `Ok`, its
//! batch is durable. A crash in the middle of a `put` leaves all batches before it, and the new one
//! as a whole or not at all.
//!
//! ```text
//! let (mut journal, text) = open(alloc, device, servers)?;    // text: all batches so far
//! journal.put(batch)?;                                        // now the batch is durable
//! ```
//!
//! A journal can be renewed: a new file with other batches replaces the old one. A crash leaves one
//! of the two, whole. If the new file can't be written, the journal continues with the old one.
//!
//! ```text
//! journal.begin_renewal(start)?;
//! journal.put_renewed(batch)?;                                // any number of them
//! journal.end_renewal()?;                                     // now the new file is durable
//! ```
//!
//! Checksums run on, so a block that is missing shows at the next one. The head says what a file is
//! of, and another program's isn't opened.
//!
//! A file may have parts, of which the last one grows (`split`). A new file can replace all parts
//! but the last one: its head has the sum from which its checksums continue, so that it ends with
//! the sum of the old ones (`start_before`).
//!
//! `specs/Device.antt` defines what a disk promises, and what a crash is. `specs/Journal.antt`
//! defines which batches a file represents. A journal works over any `Device`. `MemoryFile` is one
//! for tests: its writes tear.
//!
//! This is the first crate of the disk: everything that makes changes durable. Next are
//! `zjournal::file` (the device over `std::fs`), `zwire::records` (changes as lines) and
//! `zsnapshots::folder` (snapshots as lines). `zdurable` joins them into a front end whose changes
//! are durable.
//!
//! # Why
//! A block's text has no byte 0, and a byte 0 ends it. So no length can tear, and a batch may have
//! any size.
#![tactic(auto)]

mod batches;
mod beside;
mod checksum;
mod commit_bytes;
mod content;
mod device;
mod fault;
pub mod file;
mod head;
mod journal;
pub mod laws;
mod limits;
mod memory;
mod moment;
mod opening;
mod place;
mod reading;
mod renewal;
mod rows;
mod tearing;

pub use checksum::start_before;
pub use content::Content;
pub use device::{Device, DeviceError};
pub use fault::{OpenError, PutError};
pub use journal::Journal;
pub use memory::MemoryFile;
pub use moment::Moment;
pub use opening::{open, read_text};
