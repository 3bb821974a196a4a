//! Laws of the definitions. Each function's contract is a law; its body does nothing.

ghost use Rattle.zscript_text.specs.Laws.{ReadsDecimal, IsDecimal};

/// The decimal text of a number below `NUMBER_BOUND` spells it, and no other word does.
pub fn number_is_decimal()
    ensures reads { ReadsDecimal }
    ensures one_word { IsDecimal }
{}
