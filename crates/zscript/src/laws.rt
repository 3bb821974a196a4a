//! Laws of the definitions. Each function's contract is a law; its body does nothing.

ghost use Rattle.zscript.specs.Histories.{LinesReportOneRun, CallsAreAnsweredByTheirReplies};
ghost use Rattle.zscript.specs.Laws.{UnendedLinesHaveNoAnswer};
ghost use Rattle.zscript.specs.Promise.{EveryScriptIsExplained};

/// For every number of servers, all bytes of a script and whatever becomes of its events: the
/// history of its lines, one after the other, is linearizable.
///
/// The text of a line is a function of the same history (`effect_text` of specs/Line.antt). A call
/// is answered with a reply to it from that history (`calls_are_answered_by_their_replies`).
pub fn every_script_is_explained()
    ensures { EveryScriptIsExplained }
{}

/// Whatever a script's lines are and whatever becomes of their events, their histories, one after
/// the other, are the history of one run of the world from its initial state. So all that holds of
/// every run holds of a script.
pub fn lines_report_one_run()
    ensures { LinesReportOneRun }
{}

/// A call that was invoked is answered with a reply to it that its client received by the end of
/// its line. Where its client received none, the answer is `unanswered`.
pub fn calls_are_answered_by_their_replies()
    ensures { CallsAreAnsweredByTheirReplies }
{}

/// A line without LF has no answer before the source reported its end, whatever failed.
pub fn unended_lines_have_no_answer()
    ensures { UnendedLinesHaveNoAnswer }
{}
