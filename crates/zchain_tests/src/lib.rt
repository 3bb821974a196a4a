//! Tests of the parts of one process: the machine and the values of its calls (`machine`), and the
//! lists of what is sent, the master and a client's core (`tables`). Then the channels, and a
//! server: what it ignores, a join by a snapshot, a repair, and its leaving.
//!
//! They test what no clause says: each call that allocates can succeed, and its answer is compared.
#![tactic(auto)]

#[cfg(test)]
mod ignored;
#[cfg(test)]
mod joining;
#[cfg(test)]
mod leaving;
#[cfg(test)]
mod links;
#[cfg(test)]
mod machine;
#[cfg(test)]
mod mending;
#[cfg(test)]
mod play;
#[cfg(test)]
mod shown;
#[cfg(test)]
mod tables;
#[cfg(test)]
mod values;
