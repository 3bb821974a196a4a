//! Worked examples of the definitions. The functions do nothing.

ghost use Rattle.std.specs.Prelude.{◌≡◌, [], ◌∷◌};
ghost use Rattle.ztree.specs.Tree.{Tree, opening_tree};
ghost use Rattle.zcalls.specs.declared.call.Call.{Call};
ghost use Rattle.zcalls.specs.declared.reply.Reply.{Reply};
ghost use Rattle.zprotocol.specs.world.PlainTree.{serve};
ghost use Rattle.ztree_service.specs.log.Logs.{IsOneTrees, IsOneTreesFrom, Leaves, tree_after};
ghost use Rattle.ztree_service.specs.log.Incarnations.{AreIncarnationsFrom, whole};

/// The replies of one tree: each is computed from the tree after the calls before it.
pub fn logs_of_one_tree()
    ensures nothing { IsOneTrees [] }
    ensures left { Leaves [] opening_tree }
    ensures second { (a b : Call) → let t = (serve opening_tree 0 a).0 in
        IsOneTrees ((a, (serve opening_tree 0 a).1) ∷ ((b, (serve t 0 b).1) ∷ [])) }
    ensures no_other { (a : Call) (r : Reply)
        → IsOneTrees ((a, r) ∷ []) → r ≡ (serve opening_tree 0 a).1 }
    ensures after { (a b : Call) → let t = (serve opening_tree 0 a).0 in
        tree_after opening_tree (a ∷ (b ∷ [])) ≡ (serve t 0 b).0 }
{}

/// Successive incarnations: the first call of each is answered from the tree that the one before
/// left.
pub fn lives_go_on()
    ensures none { (t : Tree) → AreIncarnationsFrom t [] }
    ensures two { (a b : Call) → let t = (serve opening_tree 0 a).0 in
        AreIncarnationsFrom opening_tree
        (((a, (serve opening_tree 0 a).1) ∷ []) ∷ (((b, (serve t 0 b).1) ∷ []) ∷ [])) }
    ensures no_other { (t : Tree) (a : Call) (r : Reply)
        → IsOneTreesFrom t ((a, r) ∷ []) → r ≡ (serve t 0 a).1 }
    ensures in_order { (a b : Call) (r s : Reply)
        → whole (((a, r) ∷ []) ∷ (((b, s) ∷ []) ∷ [])) ≡ (a, r) ∷ ((b, s) ∷ []) }
    ensures no_other_later { (t : Tree) (a b : Call) (r s : Reply)
        → AreIncarnationsFrom t (((a, r) ∷ []) ∷ (((b, s) ∷ []) ∷ []))
        → s ≡ (serve (serve t 0 a).0 0 b).1 }
{}
