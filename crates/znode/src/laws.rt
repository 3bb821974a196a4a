//! Laws of the definitions. Each function's contract is a law; its body is empty.

ghost use Rattle.znode.specs.Laws.{NodesAreAccounted};

/// Over any inputs, the server of a node handles the messages that came whole and the orders of the
/// log, each once and in order. What is sent to each process is what the server puts for it, and
/// what it reports in the log is what it puts for the master.
pub fn nodes_are_accounted()
    ensures { NodesAreAccounted }
{}
