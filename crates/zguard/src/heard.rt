//! What came of bytes.

use crate::visitor::Standing;

/// What came of bytes: what passes, and the connection's standing and bytes after them.
#[derive(Drop)]
pub(crate) struct Heard {
    pub(crate) passed: Vec<u8>,
    pub(crate) standing: Standing,
    pub(crate) bytes: Vec<u8>,
}
