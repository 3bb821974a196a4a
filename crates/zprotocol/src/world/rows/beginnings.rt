//! Worked examples of chains that begin with another tree than the initial one.
//!
//! # Why
//!
//! A chain can begin with any lawful tree whose sessions can be granted (`CanStart`). Lawful alone
//! isn't enough: a session with a timeout of 0 has its deadline ahead, and a ping would remove
//! that.

ghost use Rattle.std.specs.Prelude.{◌≡◌, ◌≤◌, ℕ, [], ◌∷◌, None, Some};
ghost use Rattle.std.specs.FinMap.{get};
ghost use Rattle.ztree.specs.Limits.{AreLimits};
ghost use Rattle.ztree.specs.Tree.{Tree, opening_within, opening_tree};
ghost use Rattle.ztree.specs.declared.limits.TreeLimits.{TreeLimits};
ghost use Rattle.ztree.specs.declared.session.Session.{Session};
ghost use Rattle.zcalls.specs.declared.call.Query.{Query};
ghost use Rattle.zcalls.specs.declared.reply.Reply.{Reply};
ghost use Rattle.zcalls.specs.Cached.{nothing_cached};
ghost use Rattle.zcalls.specs.Step.{query_reply, step};
ghost use Rattle.zcalls.specs.declared.call.Call.{Call};
ghost use Rattle.zcalls.specs.declared.call.Call.TheVariants as call;
ghost use Rattle.zcalls.specs.declared.call.Update.{Update};
ghost use Rattle.zcalls.specs.PlainTree.{plain_tree};
ghost use Rattle.zprotocol.specs.declared.world.history.CallEvent.TheVariants.{Answer, Begin};
ghost use Rattle.zprotocol.specs.world.History.{History};
ghost use Rattle.zprotocol.specs.world.Incarnations.{state_after, later_history, later_order};
ghost use Rattle.zprotocol.specs.world.Incarnations.{CountsFromOne, CountsUpTo};
ghost use Rattle.zprotocol.specs.world.PlainTree.{IsExplained, service_of};
ghost use Rattle.zprotocol.specs.world.FromTree.{CanStart, IsExplainedFrom};
ghost use Rattle.zprotocol.specs.world.FromTree.{opening_world_from, world_after_from};
ghost use Rattle.zprotocol.specs.world.support.OrderRows.{query_of};

/// Trees that a chain can begin with: the initial one can, within any limits that a tree can have.
/// No session of any has a timeout that isn't granted, or an id above the last change.
pub fn trees_can_start()
    ensures initial { CanStart opening_tree }
    ensures within { (limits : TreeLimits) → AreLimits limits → CanStart (opening_within limits) }
    ensures timeout { (t : Tree) (id : ℕ) (s : Session)
        → CanStart t → get t.sessions id ≡ Some s → 2 ≤ s.timeout }
    ensures most { (t : Tree) (id : ℕ) (s : Session)
        → CanStart t → get t.sessions id ≡ Some s → s.timeout ≤ t.limits.timeout }
    ensures id { (t : Tree) (id : ℕ) (s : Session)
        → CanStart t → get t.sessions id ≡ Some s → id ≤ t.zxid }
{}

/// The initial world of a chain that begins with a tree: each server of the chain holds the tree,
/// and no reply. A spare server holds nothing.
pub fn servers_hold_the_tree()
    ensures member { (t : Tree)
        → ((opening_world_from t 3 1).servers 2).machine ≡ Some (nothing_cached t) }
    ensures spare { (t : Tree) → ((opening_world_from t 3 1).servers 4).machine ≡ None }
    ensures no_event { (t : Tree) → world_after_from t 3 1 [] ≡ opening_world_from t 3 1 }
{}

/// Histories that are linearizable from a tree on: no one calls; a query of the tree is answered,
/// and with no other reply. From the initial tree on they are the linearizable ones.
pub fn trees_explain()
    ensures silence { (t : Tree) → CanStart t → IsExplainedFrom t [] }
    ensures first_query { (t : Tree) (q : Query)
        → CanStart t → IsExplainedFrom t (query_of q (query_reply t q)) }
    ensures no_other { (t : Tree) (q : Query) (reply : Reply)
        → IsExplainedFrom t (query_of q reply) → reply ≡ query_reply t q }
    ensures to_initial { (h : History) → IsExplained h → IsExplainedFrom opening_tree h }
    ensures from_initial { (h : History) → IsExplainedFrom opening_tree h → IsExplained h }
{}

/// Two incarnations: the calls of the second are numbered on from the last number of the first.
pub fn lives_are_counted_on()
    ensures history { (a : Call) (r : Reply) → later_history 3 (Begin 1 1 a ∷ (Answer 1 1 r ∷ []))
        ≡ Begin 1 4 a ∷ (Answer 1 4 r ∷ []) }
    ensures order { (a : Call)
        → later_order 3 (record { client = 1; number = 2; call = a } ∷ [])
        ≡ record { client = 1; number = 5; call = a } ∷ [] }
    ensures up_to { (a : Call) → CountsUpTo 1 (Begin 1 2 a ∷ []) → ⊥ }
    ensures from_one { (a : Call) → CountsFromOne (Begin 1 0 a ∷ []) → ⊥ }
    ensures leaves { (t : Tree) (u : Update) → state_after (service_of plain_tree) t
        (record { client = 1; number = 1; call = call.Update u } ∷ []) ≡ (step t 1 u).0 }
{}
