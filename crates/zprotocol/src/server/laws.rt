//! Laws of the definitions. Each function's contract is a law; its body does nothing.

ghost use Rattle.std.specs.Prelude.{◌≡◌, ℕ, Some};
ghost use Rattle.ztree.specs.Tree.{Tree, opening_tree};
ghost use Rattle.zcalls.specs.declared.call.Query.{Query};
ghost use Rattle.zcalls.specs.declared.call.Update.{Update};
ghost use Rattle.zcalls.specs.Cached.{CachedState, nothing_cached};
ghost use Rattle.zcalls.specs.PlainTree.{plain_tree};
ghost use Rattle.zcalls.specs.Step.{step, query_reply};
ghost use Rattle.zprotocol.specs.server.Machine.{cached_tree, cached_tree_from, plain_from};
ghost use Rattle.zprotocol.specs.server.support.Homomorphism.{LogStandsForMachine, TableKeepsLogs};
ghost use Rattle.zprotocol.specs.server.Laws.{OnlyTailsAnswer, TableForgetsTheStart, first_step};

/// A log of entries represents the tree with cached replies that it leads to. The log replies as
/// that tree does, and a server does the same with either. So what holds of a chain of logs holds
/// of a chain of trees.
pub fn logs_stand_for_trees()
    ensures log { LogStandsForMachine cached_tree }
    ensures table { TableKeepsLogs cached_tree }
{}

/// Only a tail sends replies to clients, whatever message it handles.
pub fn only_tails_answer()
    ensures { OnlyTailsAnswer cached_tree }
{}

/// The machine of a server is the tree with cached replies. The clauses give its initial state, the
/// effect and the reply of a client's first update, and the reply to a query.
pub fn machine_does_the_plain_step()
    ensures start { cached_tree.start ≡ nothing_cached opening_tree }
    ensures first_update { (t : Tree) (c : ℕ) (u : Update) → (first_step t c u).0 ≡ (step t c u).0 }
    ensures first_reply { (t : Tree) (c : ℕ) (u : Update)
        → (first_step t c u).1 ≡ Some (step t c u).1 }
    ensures query { (s : CachedState Tree) (q : Query) → cached_tree.ask s q ≡ query_reply s.plain
        q }
{}

/// A machine can begin with another tree than the initial one. It begins with that tree and no
/// cached reply, and does what any other does.
pub fn machines_begin_with_a_tree()
    ensures start { (t : Tree) → (cached_tree_from t).start ≡ nothing_cached t }
    ensures update { (t : Tree) → (plain_from t).update ≡ plain_tree.update }
    ensures ask { (t : Tree) → (plain_from t).ask ≡ plain_tree.ask }
    ensures initial { cached_tree_from opening_tree ≡ cached_tree }
    ensures table { TableForgetsTheStart }
{}
