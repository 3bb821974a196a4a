//! A watch.

use crate::kind::Kind;
use zpath::Path;

/// A watch: its connection is notified of the next change of this kind at this path, or of each.
#[derive(Debug, Drop)]
pub struct Watch {
    pub path: Path,
    pub kind: Kind,
    pub connection: u32,
}
