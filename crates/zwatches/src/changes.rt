//! The events that a call makes for watches of ZooKeeper's clients.
//!
//! `events_of` returns the events of an update, by the update and the service's reply to it
//! (`specs/Events.antt`). It is pure: it knows no watch and no connection.

mod event;
mod events;
pub mod laws;
mod rows;

pub use event::{Event, Events};
pub use events::events_of;
pub use zjute::EventKind;
