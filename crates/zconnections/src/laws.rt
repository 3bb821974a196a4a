//! Laws of all tables. The functions do nothing.

ghost use Rattle.zconnections.specs.Laws.{ClosedOnce, NothingGoesBehind};

/// After the last chunk of a connection, no other chunk is queued for it.
pub fn nothing_goes_behind()
    ensures { NothingGoesBehind }
{}

/// A connection that is closed has exactly one last chunk.
pub fn closed_once()
    ensures { ClosedOnce }
{}
