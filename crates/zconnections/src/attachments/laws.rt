//! Laws of all attachments. Each function's contract is a law; its body does nothing.

ghost use Rattle.zconnections.specs.attachments.Laws.{EachRests};

/// `rest` leaves each session attached as it was; what was requested since the last is before it.
pub fn each_rests()
    ensures { EachRests }
{}
