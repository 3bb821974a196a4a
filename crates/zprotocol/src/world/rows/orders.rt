//! Worked examples of the legal order, and the first linearizable histories.

ghost use Rattle.std.specs.Prelude.{[], ◌∷◌, ◌++◌, take};
ghost use Rattle.zcalls.specs.declared.call.Query.{Query};
ghost use Rattle.zcalls.specs.declared.call.Update.{Update};
ghost use Rattle.zprotocol.specs.world.PlainTree.{IsExplained};
ghost use Rattle.zprotocol.specs.world.support.OrderRows.{ExplainsTheRun, first_down, second_down, Explains};
ghost use Rattle.zprotocol.specs.world.support.OrderRows.{true_order, first_create, lost_create};
ghost use Rattle.zprotocol.specs.world.support.OrderRows.{lost_exists};
ghost use Rattle.zprotocol.specs.world.support.OrderRows.{last_exists, strange_create, query_is_first};
ghost use Rattle.zprotocol.specs.world.support.OrderRows.{update_is_first};

/// A worked example of the legal order: it may hold an unanswered update, but no unanswered query.
pub fn legal_order_is_taken()
    ensures explained { Explains 2 2 true_order }
{}

/// Orders that explain no history. Each breaks one clause of the legal order, and no other.
pub fn other_orders_are_refused()
    ensures answered_left_out { Explains 2 2 (first_create ∷ lost_create ∷ []) → ⊥ }
    ensures call_twice { Explains 2 2 (true_order ++ last_exists ∷ []) → ⊥ }
    ensures unanswered_query { Explains 2 2
        (take 2 true_order ++ lost_exists ∷ last_exists ∷ []) → ⊥ }
    ensures never_begun { Explains 2 2 (first_create ∷ strange_create ∷ last_exists ∷ []) → ⊥ }
    ensures wrong_reply { Explains 2 1 true_order → ⊥ }
    ensures against_time { Explains 2 0 (last_exists ∷ first_create ∷ []) → ⊥ }
    ensures unlawful_state { Explains 1 2 true_order → ⊥ }
{}

/// A run and its order: two updates go down the chain, one after the other. The first one comes
/// first, whichever response is received first.
pub fn run_has_one_order()
    ensures explained { ExplainsTheRun (first_down ∷ second_down ∷ []) }
    ensures no_other { ExplainsTheRun (second_down ∷ first_down ∷ []) → ⊥ }
{}

/// Linearizable histories: no one calls; a query of the initial tree is answered; an update is
/// answered, and then a query of the tree after it.
pub fn plain_tree_explains()
    ensures silence { IsExplained [] }
    ensures first_query { (q : Query) → IsExplained (query_is_first q) }
    ensures first_update { (u : Update) (q : Query) → IsExplained (update_is_first u q) }
{}
