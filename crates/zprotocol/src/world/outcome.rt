//! What became of an event.
//!
//! # Why
//!
//! Resolved events are computed from outcomes, one for each event. `is_fitting` says which outcomes
//! an event can have, so that a program's contract can demand it. An outcome that doesn't fit
//! leaves the event as it is.

/// What became of an enabled event, where processes can run out of memory.
#[derive(Clone, Copy, Debug, PartialEq, Eq)]
pub enum Outcome {
    /// The event happened: its process acted.
    Acted,
    /// A delivery to a server that ran out of memory at the message. The server stopped, as if it
    /// had failed.
    Stopped,
    /// A delivery of a query to a server that had no memory for it. The query is lost, as if it had
    /// been ignored.
    Unheard,
}
