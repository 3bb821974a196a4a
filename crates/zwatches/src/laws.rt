//! Laws of the definitions. Each function's contract is a law; its body does nothing.

ghost use Rattle.zwatches.specs.Laws.{ReportsWhoWaits, FiresOnce, FiresEachTime, CoversBelow};
ghost use Rattle.zwatches.specs.Laws.{RemovesOwn};
ghost use Rattle.zwatches.specs.Limits.{LimitsAreKept, SharesAreApart, SharesLast};

/// An event notifies exactly the connections of the watches that it fires.
pub fn who_waits_is_reported()
    ensures { ReportsWhoWaits }
{}

/// Of the watches that wait for one change, an event leaves exactly those that it doesn't fire.
pub fn watches_fire_once()
    ensures { FiresOnce }
{}

/// An event leaves each watch that waits for every change.
pub fn persistent_watches_stay()
    ensures { FiresEachTime }
{}

/// A recursive watch waits exactly for the events of its node and of those below it, except changes
/// of their children.
pub fn recursive_watches_cover_what_is_below()
    ensures { CoversBelow }
{}

/// A request removes exactly the watches that it means, all of its own connection.
pub fn requests_remove_their_own()
    ensures { RemovesOwn }
{}

/// A table begins within its limits, and stays there.
pub fn limits_are_kept()
    ensures { LimitsAreKept }
{}

/// Where there is room for a whole share of each connection that has watches, a connection's
/// request is refused for its own watches alone.
pub fn shares_are_apart()
    ensures { SharesAreApart }
{}

/// What other connections set, remove and leave behind does nothing to a connection's share.
pub fn shares_last()
    ensures { SharesLast }
{}
