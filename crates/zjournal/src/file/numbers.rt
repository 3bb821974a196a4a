//! The calls of a record, as numbers (`specs/Events.antt`).

pub(crate) const HELD: u64 = 0;

pub(crate) const WRITTEN: u64 = 1;

pub(crate) const SHORTENED: u64 = 2;

pub(crate) const SYNCED: u64 = 3;

pub(crate) const REFUSED: u64 = 4;

pub(crate) const BEGUN: u64 = 5;

pub(crate) const ADDED: u64 = 6;

pub(crate) const SETTLED: u64 = 7;

pub(crate) const NAMED: u64 = 8;

pub(crate) const FOLDER_SYNCED: u64 = 9;

pub(crate) const PART_BEGUN: u64 = 10;

pub(crate) const PART_SETTLED: u64 = 11;

pub(crate) const PART_NAMED: u64 = 12;

pub(crate) const PART_KEPT: u64 = 13;
