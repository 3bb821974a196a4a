//! Laws of the definitions. Each function's contract is a law; its body is empty.

ghost use Rattle.znode.specs.pipe.Laws.{AreForms, BytesAreDistinct};

/// What is read was spelled so and fits. What fits and is spelled is read, with what follows it.
pub fn records_are_forms()
    ensures { AreForms }
{}

/// Bytes are those of at most one sequence of inputs, and of at most one sequence of outputs.
pub fn bytes_are_distinct()
    ensures { BytesAreDistinct }
{}
