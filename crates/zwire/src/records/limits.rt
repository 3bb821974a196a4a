//! The limit of a row. It is this project's profile.

use zcalls::MOST_PARTS;
use zpath::MAX_TEXT_LEN;

/// The greatest length of a snapshot's row in bytes, its length field included. The longest one is
/// a cached reply to a multi with the most parts, each of which created a node with the longest
/// path. The row of a node with the longest path and the most data is a little shorter.
pub const MAX_ROW_BYTES: u32 = (MOST_PARTS * (MAX_TEXT_LEN + 5)) as u32 + 22;
