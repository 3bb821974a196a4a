//! Laws of the definitions. Each function's contract is a law; its body is empty.

ghost use Rattle.zdaemon.specs.pipe.Laws.{AreForms, BytesAreDistinct};

/// What is read was spelled so and fits. What fits and is spelled is read, with what follows it.
pub fn records_are_forms()
    ensures { AreForms }
{}

/// Bytes are those of at most one sequence of messages, and of at most one sequence of answers.
pub fn bytes_are_distinct()
    ensures { BytesAreDistinct }
{}
