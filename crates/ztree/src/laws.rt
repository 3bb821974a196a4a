//! Laws of the tree: theorems about its definitions. The functions do nothing.

ghost use Rattle.ztree.specs.Laws.{ListsChildren, IsParentOfChild, ListsEphemerals, ListsStale};

/// A name is listed as a child of a path exactly when the path extended by it is a node.
pub fn children_are_listed()
    ensures { ListsChildren }
{}

/// The parent of a path extended by one name is the path.
pub fn a_child_has_its_parent()
    ensures { IsParentOfChild }
{}

/// A path is an ephemeral of a session exactly when that session owns the node at it.
pub fn ephemerals_are_listed()
    ensures { ListsEphemerals }
{}

/// A tick removes a path exactly when its node is due and has no children.
pub fn stale_nodes_are_listed()
    ensures { ListsStale }
{}
