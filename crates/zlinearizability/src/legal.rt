//! Orders that know no chain. From a list of the calls that took effect, in order, each with its
//! reply and its time, follows a legal order of the history. `specs/legal/Items.antt` says what
//! such a list must satisfy.

pub mod laws;
