//! Tests of all that makes changes durable: power cuts at every moment, disks that fail, damaged
//! files, records, snapshots and folders, and the vectors of passwords.
#![tactic(auto)]

pub mod folder;
pub mod journal;
pub mod passwords;
pub mod records;
pub mod snapshots;
