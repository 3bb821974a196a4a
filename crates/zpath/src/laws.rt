//! Laws of the definitions. Each function's contract is a law; its body does nothing.

ghost use Rattle.zpath.specs.Laws.{SpellsOnePath, IsFaultless, NumbersAreDistinct, RefusesWhatIsOver};

/// Each path has one text, and no other path has that text. The texts without a fault are exactly
/// the texts of paths.
pub fn spelling_is_unique()
    ensures one_path { SpellsOnePath }
    ensures faultless { IsFaultless }
{}

/// Sequential nodes with different counters have different paths. Appending a counter is refused
/// exactly when the resulting path is over a limit.
pub fn numbers_are_distinct()
    ensures apart { NumbersAreDistinct }
    ensures over { RefusesWhatIsOver }
{}
