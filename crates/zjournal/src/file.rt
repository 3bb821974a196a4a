//! A journal's device over a real file, which may have parts.
//!
//! ```text
//! let device = FileDevice::open(alloc, "folder", SyncMode::Batch)?;   // made at the first start
//! let (mut journal, text) = crate::open(alloc, device, servers)?;
//! ```
//!
//! What the file holds and what a crash may leave of it is computed from a record of the calls made
//! (`specs/Events.antt`). The record is data that takes no memory. That the device obeys the law of
//! devices is proved of the record. Three assumptions connect the record to the real file, and no
//! proof shows them:
//!
//! - What `open` read is the content of the file, and is durable unless `had_failed`.
//! - Each call does as `specs/Events.antt` says, and a crash leaves one of the contents there.
//! - No one else touches the file. The locks keep out every program that asks for them. Once the
//!   folder is shared, one other process may replace the parts before the last one. It replaces
//!   them by one part whose content is of the same tree, in one rename.
//!
//! So a reader has to check these lines: each method of `src/file/device.rt` with `begin`, and those
//! of `replacing.rt` and `splitting.rt`; `calls.rt`, `opening.rt`, `place.rt` and `parts.rt`. Each
//! method makes its call on the file and then records it with its result. A body that recorded a
//! sync and made none would be proved as well. No other function may set a record by a proof by
//! hand.
//!
//! `src/file/marks.rt` writes to two other files of the folder: `journal.cut` and `journal.failed`.
//!
//! # Parts
//! `journal` is the last part. A part may continue an earlier one, which has a number and a name of
//! its own, as `journal.7` (`src/file/parts.rt`). A device reads all parts, and writes to the last
//! one alone. `open_beginning` is a device over the others.
//!
//! # Why
//! The device is Rattle over `std::fs`: a host in C would add memory, pointers and a protocol to
//! what is trusted. After a failed sync, an opening may read what isn't durable: the kernel keeps a
//! page whose sync failed, and `std` has no call to drop such pages. So the device leaves a mark in
//! the folder, and `had_failed` says that it is there.

mod calls;
mod device;
mod fault;
mod found;
pub mod laws;
mod marks;
mod mode;
mod numbers;
mod opening;
mod parts;
mod place;
mod record;
mod replacing;
pub mod rows;
mod splitting;
mod tail;

pub use device::FileDevice;
pub use fault::FileFault;
pub use mode::SyncMode;
pub use tail::Tail;
