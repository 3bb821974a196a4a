//! Laws of the definitions. Each function's contract is a law; its body does nothing.

ghost use Rattle.zprotocol.specs.server.Machine.{cached_tree};
ghost use Rattle.zprotocol.specs.master.Laws.{TableKeepsLogs, OrderKeepsLogs};
ghost use Rattle.zprotocol.specs.master.Laws.{OpeningIsBounded, MessagesKeepBounds};
ghost use Rattle.zprotocol.specs.master.Laws.{OrdersKeepBounds};

/// The master does the same whether the servers hold logs, or the trees that those logs lead to.
pub fn master_looks_at_no_machine()
    ensures table { TableKeepsLogs cached_tree }
    ensures order { OrderKeepsLogs cached_tree }
{}

/// Whatever the master receives, it gives at most three epochs for each used number. A server that
/// is joining, or was ordered to leave, is a member.
pub fn epochs_are_few()
    ensures opening { OpeningIsBounded }
    ensures messages { MessagesKeepBounds cached_tree }
    ensures orders { OrdersKeepBounds cached_tree }
{}
