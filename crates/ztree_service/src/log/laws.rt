//! The law. Its body does nothing.

ghost use Rattle.ztree_service.specs.log.Incarnations.{IncarnationsAreOneTrees, IncarnationsAreOneTreesFrom};
ghost use Rattle.ztree_service.specs.log.Incarnations.{IncarnationsLeaveOneTree, TreesCanStartAgain};

/// Each incarnation of a service begins with the tree that the one before left. The replies of all
/// incarnations, in order, are those of one plain tree that never stopped.
pub fn incarnations_are_one_trees()
    ensures initial { IncarnationsAreOneTrees }
    ensures from { IncarnationsAreOneTreesFrom }
    ensures leaves { IncarnationsLeaveOneTree }
    ensures again { TreesCanStartAgain }
{}
