//! Wrong tables, each refuted by an invariant. Each contract is a step that loses it.

ghost use Rattle.zlinearizability.specs.chain.support.WrongTables.{
  AnyQueriesAreRefuted,
  AnySnapshotsAreRefuted,
  AnySubmitsAreRefuted,
  AnyUpdatesAreRefuted,
  EarlyAnswersAreRefuted,
  OldTailsAreRefuted,
  SecondActsAreRefuted,
};

/// The head answers before the tail has the update.
pub fn early_answers_are_refuted()
    ensures { EarlyAnswersAreRefuted }
{}

/// An old tail answers after its snapshot.
pub fn old_tails_are_refuted()
    ensures { OldTailsAreRefuted }
{}

/// A retried update acts again.
pub fn second_acts_are_refuted()
    ensures { SecondActsAreRefuted }
{}

/// Any initialised server accepts a `Submit`.
pub fn any_submits_are_refuted()
    ensures { AnySubmitsAreRefuted }
{}

/// Any initialised server answers queries.
pub fn any_queries_are_refuted()
    ensures { AnyQueriesAreRefuted }
{}

/// An update is accepted though its number isn't the next.
pub fn any_updates_are_refuted()
    ensures { AnyUpdatesAreRefuted }
{}

/// A snapshot replaces a state that the server has.
pub fn any_snapshots_are_refuted()
    ensures { AnySnapshotsAreRefuted }
{}
