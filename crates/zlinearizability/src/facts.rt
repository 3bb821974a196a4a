//! What holds of every list of events besides linearizability. Each contract is a fact, and each
//! body does nothing.

ghost use Rattle.zlinearizability.specs.Facts.{
  AnsweredQueriesSawCommitted,
  AnsweredUpdatesAreCommitted,
  CommittedStays,
  EveryRunIsSound,
  LogsBeginEachOther,
  OneTailAnswers,
  TailsHoldWhatTailsHeld,
  UpdatesActOnce,
};

/// Every run of the log world is sound: it has all the facts of `specs/chain/Sound.antt`.
pub fn every_run_is_sound()
    ensures { EveryRunIsSound }
{}

/// At most one server is a tail that answers. A failed server never is.
pub fn one_tail_answers()
    ensures { OneTailAnswers }
{}

/// The log of each member is a prefix of the log of each member before it.
pub fn logs_begin_each_other()
    ensures { LogsBeginEachOther }
{}

/// What is committed remains committed.
pub fn committed_stays()
    ensures { CommittedStays }
{}

/// A server that is a tail holds all that any earlier tail answered from.
pub fn tails_hold_what_tails_held()
    ensures { TailsHoldWhatTailsHeld }
{}

/// When a client receives the reply to an update, the update is committed, and acted with that
/// reply.
pub fn answered_updates_are_committed()
    ensures { AnsweredUpdatesAreCommitted }
{}

/// When a client receives the reply to a query, the log that the query saw is committed.
pub fn answered_queries_saw_committed()
    ensures { AnsweredQueriesSawCommitted }
{}

/// An update acts once, however often it arrives.
pub fn updates_act_once()
    ensures { UpdatesActOnce }
{}
