//! Laws of the definitions. Each function's contract is a law; its body does nothing.

ghost use Rattle.zprotocol.specs.server.Machine.{cached_tree};
ghost use Rattle.zprotocol.specs.client.Laws.{TableKeepsLogs, CallKeepsLogs, RetryKeepsLogs};

/// A client does the same whether the servers hold logs, or the trees that those logs lead to.
pub fn client_looks_at_no_machine()
    ensures table { TableKeepsLogs cached_tree }
    ensures call { CallKeepsLogs cached_tree }
    ensures retry { RetryKeepsLogs cached_tree }
{}
