//! What holds of all records of calls. The contract is a law, and the body is empty.

ghost use Rattle.zjournal.specs.file.Laws.{WhatIsReadMayBeLeft};

/// What a read returns is among what a crash may leave. So killing the process, on a machine that
/// keeps running, is one of the crashes.
pub fn what_is_read_may_be_left()
    ensures { WhatIsReadMayBeLeft }
{}
