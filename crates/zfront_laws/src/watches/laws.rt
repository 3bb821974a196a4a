//! The laws. Their bodies do nothing.

ghost use Rattle.zfront_laws.specs.watches.Laws.{EveryWatchIsReported};
ghost use Rattle.zfront_laws.specs.watches.Limits.{EveryFrontKeepsItsLimits};

/// Whatever the steps of a front were, its effect on the tables is a list of allowed happenings. So
/// a connection gets an answer only after events for all changes that its watches waited for. The
/// one exception is the answer to the close of its session. An event that a watch missed is sent
/// only to the connection that sets this watch again in that step. The log of the happenings is
/// that of the steps. It holds if the tree that the log began with was settled.
pub fn every_watch_is_reported()
    ensures { EveryWatchIsReported }
{}

/// Whatever the steps of a front were, it has the limits of watches that it began with, and its
/// watches are within them, if its first tree or the one of an earlier log was settled.
pub fn every_front_keeps_its_limits()
    ensures { EveryFrontKeepsItsLimits }
{}
