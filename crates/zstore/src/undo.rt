//! The undo of one change of the nodes.

use znodes::{Content, Id, Marks};

/// The undo of one change of the nodes. Changes are undone in reverse order, so each undo is
/// applied to the nodes as its change left them.
#[derive(Drop)]
pub(crate) enum Undo {
    /// A node was added under this Id: remove it.
    Added(Id),
    /// The first node was removed from beneath the second: bring it back there.
    Taken(Id, Id),
    /// The fields for its children were written in this node: restore these.
    Marked(Id, Marks),
    /// The data of this node was written: restore this.
    Written(Id, Content),
}
