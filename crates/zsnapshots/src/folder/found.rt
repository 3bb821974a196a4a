//! What was found in a text.

use ztree_service::LocalTree;

/// The tree that a text represents, and what else was found.
#[derive(Drop)]
pub struct Found {
    /// The tree.
    pub tree: LocalTree,
    /// The bytes of the snapshot with which the text begins, or 0 if it begins with none.
    pub snapshot: usize,
    /// Whether passwords of sessions are among the text's records.
    pub had_passwords: bool,
}
