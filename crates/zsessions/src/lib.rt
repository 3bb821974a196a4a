//! The sessions of a machine, found by id and by deadline.
//!
//! Each session is in a slot of `zslots`, and a map from session ids finds its slot. The session is
//! also in one of 32 lists, by its deadline modulo 32. So a tick reads one list only, and a new
//! deadline allocates nothing.
//!
//! Consumes session ids with their sessions and deadlines; produces the session of an id, and the
//! ids that expire at a tick. Contracts see the sessions as `ztree` does: a finite map from their
//! ids. `specs/Deadlines.antt` has the rest.
#![tactic(auto)]

mod anew;
mod buckets;
mod limits;
mod reached;
mod row;
mod sessions;
mod table;

pub use sessions::Sessions;
