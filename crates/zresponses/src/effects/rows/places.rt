//! Events of watched nodes that a tick or the end of a session took.

ghost use Rattle.std.specs.Prelude.{◌≡◌, [], ◌∷◌};
ghost use Rattle.ztree.specs.support.Samples.{at_a, at_a_b, some_stat};
ghost use Rattle.zcalls.specs.declared.refusal.Refusal.TheVariants.{NoNode};
ghost use Rattle.zcalls.specs.declared.reply.Reply.TheVariants as reply;
ghost use Rattle.zjute.specs.declared.event.EventKind.TheVariants.{NodeDeleted, NodeChildrenChanged};
ghost use Rattle.zwatches.specs.changes.Events.{event};
ghost use Rattle.zresponses.specs.effects.Looking.{seen_at, seen};

/// Events of change 3, in which the children of the node last changed.
pub fn what_is_seen()
    ensures gone { seen_at 3 at_a (reply.Refused NoNode) ≡ event NodeDeleted at_a ∷ [] }
    ensures children { seen_at 3 at_a (reply.Exists some_stat)
        ≡ event NodeChildrenChanged at_a ∷ [] }
    ensures before { seen_at 4 at_a (reply.Exists some_stat) ≡ [] }
    ensures all { seen 3 (at_a ∷ at_a_b ∷ []) (reply.Exists some_stat ∷ reply.Refused NoNode ∷ [])
        ≡ event NodeChildrenChanged at_a ∷ event NodeDeleted at_a_b ∷ [] }
    ensures no_reply { seen 3 (at_a ∷ []) [] ≡ [] }
{}
