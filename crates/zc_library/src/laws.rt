//! Laws of the definitions. The function's contract is a law; its body does nothing.

ghost use Rattle.zc_library.specs.Uses.{ScriptsTextIsReported};

/// In whatever order C makes its calls, no answer is lost, repeated or out of order. C reads the
/// answers to a script of the executed lines.
pub fn scripts_text_is_reported()
    ensures { ScriptsTextIsReported }
{}
