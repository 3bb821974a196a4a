//! Laws of the definitions. Each function's contract is a law; its body is empty.

ghost use Rattle.zsnapshots.specs.Laws.{AreRows, RowsAreShort, RowsAreOfOneState, RowsAreDistinct};
ghost use Rattle.zsnapshots.specs.Laws.{OneStateInFront, OneStateInFrontOfText, NoneIsMissing};
ghost use Rattle.zsnapshots.specs.Rows.{header_text, session_text, node_text, reply_text};

/// Rows are read again, distinguished, and cut only where more bytes may make one.
pub fn rows_are_read_again()
    ensures header { AreRows header_text }
    ensures session { AreRows session_text }
    ensures node { AreRows node_text }
    ensures reply { AreRows reply_text }
{}

/// Each row of a state is short.
pub fn rows_are_short()
    ensures { RowsAreShort }
{}

/// The bytes of rows alone show which state they are of, whatever follows them.
pub fn rows_are_distinct()
    ensures one { RowsAreOfOneState }
    ensures rows { RowsAreDistinct }
    ensures front { OneStateInFront }
    ensures text { OneStateInFrontOfText }
{}

/// A header says how many rows a state has.
pub fn headers_report_the_end()
    ensures { NoneIsMissing }
{}
