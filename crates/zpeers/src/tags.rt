//! The tags of records. They are this project's profile.

/// The record is the frame of a message.
pub const FRAME: u8 = 0;

/// The record is a row of the state that a snapshot has.
pub const ROW: u8 = 1;

/// The record, which has no bytes, comes after the rows of a state.
pub const END: u8 = 2;
