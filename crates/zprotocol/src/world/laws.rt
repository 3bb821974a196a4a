//! What holds of the definitions themselves. Each function's contract is a law, and its body does
//! nothing.
//!
//! # Why
//!
//! Failed servers do not matter. The test of an event looks at the clients, the master, which
//! servers have failed, and the front of a channel into one that hasn't. Both worlds have those in
//! common, so an enabled event does the same in both.

ghost use Rattle.std.specs.Prelude.{◌≡◌, ℕ};
ghost use Rattle.ztree.specs.Tree.{Tree, opening_tree};
ghost use Rattle.zcalls.specs.declared.call.Query.{Query};
ghost use Rattle.zcalls.specs.declared.call.Update.{Update};
ghost use Rattle.zcalls.specs.declared.call.Call.TheVariants as call;
ghost use Rattle.zcalls.specs.PlainTree.{plain_tree};
ghost use Rattle.zcalls.specs.Step.{step, query_reply};
ghost use Rattle.zprotocol.specs.world.PlainTree.{service_of, serve};
ghost use Rattle.zprotocol.specs.world.Keeping.{KeepingDoesTheSame, KeepingHasTheSameEnabled};
ghost use Rattle.zprotocol.specs.world.Keeping.{RetiredHaveFailed};
ghost use Rattle.zprotocol.specs.server.Machine.{cached_tree};
ghost use Rattle.zprotocol.specs.world.FromTree.{EventsForgetTheStart, RunsForgetTheStart};
ghost use Rattle.zprotocol.specs.world.Incarnations.{TwoIncarnationsAreOne, TheSecondIncarnationLeavesTheTree};
ghost use Rattle.zprotocol.specs.world.support.Learning.{DoneIsLearnt, IdleIsPassed, PassBegins};
ghost use Rattle.zprotocol.specs.world.support.Learning.{PassesEnd, ReadingIsLearnt};
ghost use Rattle.zprotocol.specs.world.Laws.{FittingOutcomesAreRead, LinksAreVisited, QuietIsQuiet};
ghost use Rattle.zprotocol.specs.world.Laws.{EpochsAreFew};
ghost use Rattle.zprotocol.specs.world.Laws.{SettlingIsARun, SettlingKeepsItsLimit, QuietHasNothingToTake};
ghost use Rattle.zprotocol.specs.world.support.LogWorld.{LogWorldHasTheSameEnabled, LogWorldStandsForWorld};

/// After every list of events the world over trees is the world over logs, with each log replayed.
/// The same events are enabled in both, and they have one history.
pub fn log_world_stands_for_the_world()
    ensures world { LogWorldStandsForWorld }
    ensures enabled { LogWorldHasTheSameEnabled }
{}

/// A world that preserves what failed servers held does the same as one that drops it, in every
/// run. So they have one history.
pub fn failed_servers_do_not_matter()
    ensures run { KeepingDoesTheSame }
    ensures enabled { KeepingHasTheSameEnabled }
{}

/// A server that receives an order to retire is as one that failed at that moment.
pub fn retired_servers_have_failed()
    ensures { RetiredHaveFailed }
{}

/// In every world settling is a run, and no longer than its limit. Where it ends `Quiet`, no
/// message can be delivered.
pub fn settling_is_a_run()
    ensures run { SettlingIsARun }
    ensures limit { SettlingKeepsItsLimit }
    ensures quiet { QuietHasNothingToTake }
{}

/// From an initial world, settling visits every channel that holds a message. So where it ends
/// `Quiet`, no message can be delivered on any channel.
pub fn settling_visits_every_link()
    ensures visited { LinksAreVisited }
    ensures quiet { QuietIsQuiet }
{}

/// From an initial world the master gives few epochs: at most three for each possible server.
pub fn epochs_are_few()
    ensures { EpochsAreFew }
{}

/// A program can settle, or resolve events, without knowing the outcomes beforehand. It learns each
/// outcome when its event is done. The definition, given the outcomes learnt so far and any others,
/// is where the program is, given those others.
pub fn outcomes_are_learnt()
    ensures done { DoneIsLearnt cached_tree }
    ensures idle { IdleIsPassed cached_tree }
    ensures begins { PassBegins cached_tree }
    ensures ends { PassesEnd cached_tree }
    ensures reading { ReadingIsLearnt cached_tree }
{}

/// Where an outcome fits, the event resolves as the outcome says: a server that stops has failed,
/// and an unheard query is lost.
pub fn fitting_outcomes_are_read()
    ensures { FittingOutcomesAreRead }
{}

/// The plain tree as a sequential specification: its initial state, an update by the plain step,
/// and a query, which leaves the tree unchanged.
pub fn calls_do_the_plain_step()
    ensures opening { (service_of plain_tree).opening ≡ opening_tree }
    ensures update { (t : Tree) (c : ℕ) (u : Update) → serve t c (call.Update u) ≡ step t c u }
    ensures query { (t : Tree) (c : ℕ) (q : Query)
        → serve t c (call.Query q) ≡ (t, query_reply t q) }
{}

/// What happens at an event, and so in a run, doesn't depend on the tree that the machines began
/// with.
pub fn runs_forget_the_start()
    ensures event { EventsForgetTheStart }
    ensures run { RunsForgetTheStart }
{}

/// A service ends, and restarts from a snapshot with only the tree that it left. What callers saw
/// in both incarnations is linearizable over one plain tree, as if there were one. The law joins
/// the first two, so it holds for any number of incarnations.
pub fn two_incarnations_are_one()
    ensures explained { TwoIncarnationsAreOne }
    ensures leaves { TheSecondIncarnationLeavesTheTree }
{}
