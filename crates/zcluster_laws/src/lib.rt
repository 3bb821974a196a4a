//! The fronts of a cluster, one at each head of a chain: all answers that they send are one plain
//! tree's, in real time.
//!
//! A front executes the calls of an input on its own tree, and commits them to the chain
//! (`zheads`). What it would send waits until the chain has acknowledged these calls. The
//! definitions are in `specs/Cluster.antt` (the fronts, and their runs) and `specs/Laws.antt` (the
//! promises).
//!
//! # Why
//!
//! A head's machine changes by its front's calls alone, and both do them in one order. So the
//! front's tree is that of the machine, and the replies of the two can't differ.
//!
//! A reaction waits until the entries up to that of its last call have left Sent, or up to the next
//! one if that call is a query. So it needs one number, and no list of calls.
//!
//! A front is dropped with its head, and all that waits is lost. The machine of the successor has
//! all entries that were acknowledged, and maybe more. So its front may begin with calls whose
//! answers no client got.
#![tactic(auto)]

pub mod laws;
mod rows;
