//! The promise of the chain. Each contract is a law over every list of events, and each body does
//! nothing.
//!
//! # Why
//!
//! The law has no premise, not even that calls name paths: the step is defined on every list of
//! byte lists. That every key of a tree is a path (`HasPaths`) is an invariant of every store, and
//! no part of `IsLawful`. Else every law of runs would have to ask that each call names a path.
//!
//! A connection that breaks, or whose sender is killed, delivers a prefix of what was sent. So any
//! channel but the master's may lose its end (`run_with_cuts`). The proof needs the master's
//! orders: those in flight to a member lead to the neighbour that the master knows.

ghost use Rattle.zlinearizability.specs.Cuts.{EveryHistoryWithCutsIsExplained};
ghost use Rattle.zlinearizability.specs.FromTree.{
  EveryHistoryFromIsExplained,
  EveryHistoryFromWithCutsIsExplained,
};
ghost use Rattle.zlinearizability.specs.Headline.{EveryHistoryIsExplained};

/// For every list of events, the history of the run is linearizable: it has one order of all
/// answered calls and some unanswered updates, each once. The order has each call before those
/// invoked after its response. It gives every answered call the reply that it had, and passes
/// through lawful trees only.
pub fn every_history_is_explained()
    ensures { EveryHistoryIsExplained }
{}

/// The same holds where channels from servers and clients lose their ends, before any event. What a
/// failed server had sent may be lost, and so may what is on a connection that breaks. The master's
/// own channels lose nothing.
pub fn every_history_with_cuts_is_explained()
    ensures { EveryHistoryWithCutsIsExplained }
{}

/// A chain can begin with any lawful tree whose sessions have ids and timeouts that can be granted.
/// For every list of events, its history is linearizable from that tree on, also where channels
/// lose their ends.
pub fn every_history_from_a_tree_is_explained()
    ensures history { EveryHistoryFromIsExplained }
    ensures cuts { EveryHistoryFromWithCutsIsExplained }
{}
