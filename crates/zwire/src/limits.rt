//! The limit of a frame. It is this project's profile.

use zcalls::MOST_PARTS;
use ztree::MOST_DATA;

/// The greatest number of bytes after a frame's length: nearly 2 GiB. The longest call has about
/// half of them: a multi with the most parts and the most data in each. The names of the most
/// children have about a quarter.
pub const MAX_FRAME: u32 = 2 * (MOST_PARTS * MOST_DATA) as u32;
