//! A slab whose Ids are never given out twice, and intrusive lists over its items.
//!
//! The lowest crate of the wing "machine": the state of one server. Continue with `zsessions` and
//! `znodes`, the two tables on it, then `zstore` (both, with a clock and savepoints), then `zops`
//! (the calls on a store).
//!
//! `Slots` consumes an item and produces its `Id`, by which the item is read, written and removed.
//!
//! ```
//! let mut slots = Slots::new(alloc);
//! let mut list: List<0> = List::new();
//! let id = slots.insert(item).ok().expect(&rt, "memory");
//! list.push_front(&mut slots, id);
//! list.unlink(&mut slots, id);
//! ```
//!
//! Contracts see a `Slots` as a finite map from Ids (`specs/SlotsView.antt`). They see a `List` as
//! the sequence of Ids that its items' links spell (`specs/Chains.antt`, `specs/Lists.antt`). An
//! item can be in as many lists as it has pairs of links. `Linked<L>` says which pair belongs to
//! list `L`. A list's call writes a total function of the map (`specs/Links.antt`), so a clause on
//! one list also says what happens to all others.
#![tactic(auto)]

mod copied;
mod generation;
mod id;
pub mod laws;
pub mod limits;
mod linked;
mod list;
mod neighbours;
mod rows;
mod slots;

pub use copied::Copied;
pub use id::Id;
pub use linked::{Linked, Links};
pub use list::List;
pub use slots::Slots;
