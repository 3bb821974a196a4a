//! The length that represents null.

/// The length -1, which represents null: four bytes of 255.
pub const NULL: u32 = 0xFFFF_FFFF;
