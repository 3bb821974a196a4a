//! The limit of a frame.

/// The most bytes of a frame after its length, and so of any field (`jute.maxbuffer`).
pub const MAX_FRAME: u32 = 1_048_575;
