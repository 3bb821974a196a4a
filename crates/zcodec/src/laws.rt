//! Laws of the definitions. Each function's contract is a law; its body does nothing.

ghost use Rattle.zcodec.specs.Laws.{AreForms, SpellsApart, WholeIsSpelled, SpelledIsWhole};

/// Reading and encoding are inverse, for every form composed of numbers, flags and bytes. A value
/// that was read fits and has the bytes as its encoding. The encoding of a value that fits is read
/// back, with the rest.
pub fn composed_forms_are_lawful()
    ensures { AreForms }
{}

/// Two values that fit have different encodings.
pub fn texts_are_distinct()
    ensures { SpellsApart }
{}

/// All bytes are read as a value exactly when they are its encoding and the value fits.
pub fn the_whole_is_read()
    ensures spelled { WholeIsSpelled }
    ensures again { SpelledIsWhole }
{}
