//! Laws of the definitions. Each function's contract is a law; its body is empty.

ghost use Rattle.zwire.specs.records.Laws.{OneRecordInFront, TextsAreDistinct, TextsJoin, AreLines};

/// A text begins with the line of at most one record, and is the text of at most one list of
/// records.
pub fn texts_are_distinct()
    ensures first { OneRecordInFront }
    ensures all { TextsAreDistinct }
{}

/// The text of some records, followed by that of others, is the text of them all.
pub fn texts_join()
    ensures { TextsJoin }
{}

/// The text of records has no byte 0, and each of its lines ends.
pub fn texts_are_lines()
    ensures { AreLines }
{}
