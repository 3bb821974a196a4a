//! Attachments of sessions to connections.
//!
//! A connection opens a session, takes one, or leaves it, and this crate stores what each session
//! then has beside the tree. It lists the sessions that sent requests since the last `rest` but one.
//! `specs/Attachments.antt` defines it.

mod attachment;
mod attachments;
pub mod laws;
mod listing;
mod restored;
mod rows;
mod table;

pub use attachment::Attachment;
pub use attachments::Attachments;
