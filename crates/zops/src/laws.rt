//! Laws of the definitions. Each function's contract is a law; its body does nothing.

ghost use Rattle.zops.specs.LimitsLaws.{CallsStayWithin};
ghost use Rattle.zops.specs.RestoredLaws.{RowsMakeTheirMachine, RefusedRootsAreNowhere, RefusedSessionsAreNowhere, RefusedNodesAreNowhere};

/// The rows of a settled tree restore it: each can be put after those before it. A tree is settled
/// if it is lawful and bounded, and no node is of a later change or tick.
pub fn rows_make_their_machine()
    ensures { RowsMakeTheirMachine }
{}

/// A row that can't be put is the next row of no settled tree.
pub fn refused_rows_are_nowhere()
    ensures root { RefusedRootsAreNowhere }
    ensures session { RefusedSessionsAreNowhere }
    ensures node { RefusedNodesAreNowhere }
{}

/// A tree that fits within other limits still fits within them after any calls.
pub fn calls_stay_within_limits()
    ensures { CallsStayWithin }
{}
