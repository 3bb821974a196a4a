//! Tests of a journal over a file in memory: power cuts at every moment, disks that fail, and files
//! that aren't what they should be.

#[cfg(test)]
mod cuts;
#[cfg(test)]
mod failures;
#[cfg(test)]
mod faults;
#[cfg(test)]
mod incarnations;
#[cfg(test)]
mod renewals;
#[cfg(test)]
mod sums;
