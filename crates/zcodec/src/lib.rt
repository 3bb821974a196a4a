//! Binary encodings of values, composed from smaller ones.
//!
//! The lowest crate of the wing "bytes". Above it, `zjute` has the records of ZooKeeper's client
//! protocol (jute).
//!
//! A form says how a value is encoded, how it is read from the front of bytes, and which values
//! fit. The readers consume bytes and produce a value and the rest, or the first fault. The writers
//! append an encoding to a vector.
//!
//! The definitions: `specs/Forms.antt` (forms, and how they are composed), `specs/Choices.antt`
//! (flags, options, lengths and tags), `specs/Readers.antt` (what a reader returns),
//! `specs/Laws.antt` (what a form must satisfy).
//!
//! A crate above composes its own forms and proves their laws, in one to four lines each. The
//! lemmas are in `proofs/`: `Numbers`, `Parts`, `Times`, `Choices`, `Sums` and `Whole`.
//! `proofs/Loops.antt` has those for a loop that reads a list.
#![tactic(auto)]

mod fault;
pub mod laws;
mod limits;
mod reading;
mod rows;
mod writing;

pub use fault::{Fault, ReadError};
pub use limits::NULL;
pub use reading::{
    buffer_at, end, exactly_at, flag_at, length_at, length_or_null_at, sized_at, u8_at, u32_at,
    u64_at,
};
pub use writing::{put_buffer, put_flag, put_sized, put_u8, put_u32, put_u64};
