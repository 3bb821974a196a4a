//! Laws of the definitions. Each function's contract is a law; its body does nothing.

ghost use Rattle.zstore.specs.RestoredLaws.{RowsMakeTheirTree, RefusedRootsAreNowhere, RefusedSessionsAreNowhere, RefusedNodesAreNowhere};

/// A lawful tree's own rows restore it: each can be put after those before it.
pub fn rows_make_their_tree()
    ensures { RowsMakeTheirTree }
{}

/// A row that can't be put is the next row of no lawful tree.
pub fn refused_rows_are_nowhere()
    ensures root { RefusedRootsAreNowhere }
    ensures session { RefusedSessionsAreNowhere }
    ensures node { RefusedNodesAreNowhere }
{}
