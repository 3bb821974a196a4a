//! Laws of the definitions. Each function's contract is a law; its body does nothing.

ghost use Rattle.zresponses.specs.Laws.{MadeNodesHaveThisStat, ZxidsAreToldFromTheBase};

/// The stat returned for a created node is the one that the node has.
pub fn made_nodes_have_this_stat()
    ensures { MadeNodesHaveThisStat }
{}

/// A zxid is told with the base added, and one that a client names is compared as it was told.
pub fn zxids_are_told_from_the_base()
    ensures { ZxidsAreToldFromTheBase }
{}
