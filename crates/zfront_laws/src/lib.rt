//! Laws of every front end for ZooKeeper's clients (`zfront`), whatever its steps are. It may begin
//! with any tree, or with one that an earlier front left.
//!
//! All its calls form one log, and the replies of that log are those of one plain tree
//! (`specs/Laws.antt`). Each law is the contract of a function whose body does nothing.
#![tactic(auto)]

pub mod frames;
pub mod laws;
mod rows;
pub mod watches;
