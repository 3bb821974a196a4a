//! The laws. Each function's contract is a law; its body does nothing.

ghost use Rattle.zfront_laws.specs.Given.{EverySessionIsGot, WhoSpeaksIsAlive};
ghost use Rattle.zfront_laws.specs.Laws.{EveryFrontIsItsTrees, EveryFrontIsOneTree};
ghost use Rattle.zfront_laws.specs.Laws.{EveryFrontKeepsFew, EveryRunGoesOn, EveryStepGoesOn};
ghost use Rattle.zfront_laws.specs.Laws.{NoRequestMakesNoCall, RequestsAreForTheirSession};
ghost use Rattle.zfront_laws.specs.Laws.{StaysAsItBegan};
ghost use Rattle.zfront_laws.specs.Making.{EveryChangeIsMade, EverySessionIsRestored};
ghost use Rattle.zfront_laws.specs.Making.{EveryStepMakesMore};
ghost use Rattle.zfront_laws.specs.Seats.{EveryFrontIsSeated, OneSpeaks, SeatsAreKept};
ghost use Rattle.zfront_laws.specs.Starts.{InitialTreesAreSettled, SettledTreesCanStart};

/// The log of each step leads from the tree before it to the tree after it, with that tree's
/// replies. A step is an input, the sending of a chunk, or the taking of recorded updates.
pub fn every_step_goes_on()
    ensures { EveryStepGoesOn }
{}

/// The same for any number of steps, whatever they are.
pub fn every_run_goes_on()
    ensures { EveryRunGoesOn }
{}

/// A front stores at most `MAX_KEPT` bytes of partial frames for all connections together, whatever
/// its steps are.
pub fn every_front_keeps_few()
    ensures { EveryFrontKeepsFew }
{}

/// Whatever the steps of a front were, all its calls form one log, after any earlier log that led
/// from some tree to the first one. The replies are those of one plain tree that serves these calls
/// in order, so no connection sees another tree. With or without an earlier log, the log since the
/// beginning is that of the first tree.
pub fn every_front_is_one_tree()
    ensures log { EveryFrontIsOneTree }
    ensures since { EveryFrontIsItsTrees }
{}

/// The secret, the clock, and whether updates are recorded never change.
pub fn stays_as_it_began()
    ensures { StaysAsItBegan }
{}

/// Bytes that are no valid request close their connection and make no call.
pub fn no_request_makes_no_call()
    ensures { NoRequestMakesNoCall }
{}

/// A frame makes calls for the session of its own connection only, or it makes none.
pub fn requests_are_for_their_session()
    ensures { RequestsAreForTheirSession }
{}

/// If each connection that has a session is the one attached to it, no two connections have the
/// same session.
pub fn one_speaks()
    ensures { OneSpeaks }
{}

/// All changes of the tables preserve that each connection that has a session is the one attached
/// to it. They are: close, end, send, notify, and remove, attach or open a session.
pub fn seats_are_kept()
    ensures { SeatsAreKept }
{}

/// Each connection that has a session is the one attached to it, whatever the steps of a front
/// were, if a service can begin with the first tree. So no two connections ever have the same
/// session.
pub fn every_front_is_seated()
    ensures { EveryFrontIsSeated }
{}

/// Whatever the steps of a front were, each connection that has a session got it by its first
/// frame. It asked for a new session, which the tree opened. Or it named one of the tree, and gave
/// the whole password that the secret derives for it.
pub fn every_session_is_got()
    ensures { EverySessionIsGot }
{}

/// Whenever a front is about to handle a frame, each connection that has a session has one of the
/// tree, if a service can begin with the first tree. So no client acts for a session that ended.
pub fn who_speaks_is_alive()
    ensures { WhoSpeaksIsAlive }
{}

/// At each step the updates of its log come after those that were recorded before.
pub fn every_step_makes_more()
    ensures { EveryStepMakesMore }
{}

/// A front begins with each session of its tree, without a connection. So a client can come back to
/// it.
pub fn every_session_is_restored()
    ensures { EverySessionIsRestored }
{}

/// The updates of a front's log are those taken and those still recorded: each once, in order.
pub fn every_change_is_made()
    ensures { EveryChangeIsMade }
{}

/// The initial tree is settled, within any limits that a tree can have. So every law here holds of
/// a front that begins with it.
pub fn initial_trees_are_settled()
    ensures { InitialTreesAreSettled }
{}

/// A service can begin with a settled tree.
pub fn settled_trees_can_start()
    ensures { SettledTreesCanStart }
{}
