//! Frames: the received bytes of a connection, cut into requests.

ghost use Rattle.std.specs.Prelude.{◌≡◌};
ghost use Rattle.zjute.specs.Frames.{NextIs, next_of};

use crate::limits::MAX_FRAME;

/// The frame at the front of the received bytes, if a whole one is there.
pub enum Next<'a> {
    /// A whole frame without its length, and the bytes after it.
    Whole(&'a [u8], &'a [u8]),
    /// Less than a whole frame.
    Partial,
    /// An invalid length: below 0, or above `MAX_FRAME`.
    TooLong,
}

/// Cuts the first frame off the received bytes of a connection.
#[tactic(auto, unfolding(crate::specs::Frames::next_of))]
pub fn next_frame(came: &[u8]) -> Next<'_>
    ensures { NextIs result (next_of came.now) }
{
    let Some((front, rest)) = came.split_first_chunk::<4>() else {
        return Next::Partial;
    };
    // A length below 0 has its highest bit set, so it is above the limit here.
    let len = u32::from_be_bytes(*front);
    if len > MAX_FRAME {
        return Next::TooLong;
    }
    match rest.split_at_checked(len as usize) {
        Some((frame, rest)) => Next::Whole(frame, rest),
        None => Next::Partial,
    }
}
