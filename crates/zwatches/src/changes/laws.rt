//! Laws of the definitions. Each function's contract is a law; its body does nothing.

ghost use Rattle.zwatches.specs.changes.Laws.{EventsReportEveryChange};

/// The events of an update report every change that it made to a node's data or children.
/// Exceptions are a tick and the end of a session: their replies don't name the deleted nodes. The
/// version of an access control list is no part of this: no event tells of it.
pub fn events_report_every_change()
    ensures { EventsReportEveryChange }
{}
