//! The watches that requests ask for.

ghost use Rattle.std.specs.Prelude.{◌≡◌, pos, true, false, [], ◌∷◌};
ghost use Rattle.ztree.specs.support.Samples.{at_a, at_a_b, some_stat};
ghost use Rattle.zcalls.specs.declared.call.Call.TheVariants.{Query};
ghost use Rattle.zcalls.specs.declared.call.Query.TheVariants.{Exists, GetData, GetChildren};
ghost use Rattle.zcalls.specs.declared.refusal.Refusal.TheVariants.{NoNode};
ghost use Rattle.zcalls.specs.declared.reply.Reply.TheVariants as reply;
ghost use Rattle.zjute.specs.declared.event.EventKind.TheVariants.{NodeCreated, NodeDeleted, NodeDataChanged, NodeChildrenChanged};
ghost use Rattle.zjute.specs.declared.request.Asked.TheVariants as asked;
ghost use Rattle.zwatches.specs.changes.Events.{event};
ghost use Rattle.zwatches.specs.declared.kind.Kind.TheVariants.{Data, Missing, Children, EachData, EachChildren, Recursive};
ghost use Rattle.zresponses.specs.declared.effects.wish.Wish.TheVariants.{Waits, Reports, Has, Ends};
ghost use Rattle.zjute.specs.declared.watch_type.WatchType.TheVariants as typed;
ghost use Rattle.zresponses.specs.effects.Wishes.{query_wish, first_wish, wishes, wish_again, call_again, wishes_again};
ghost use Rattle.zresponses.specs.effects.support.Samples.{look_a, exists_a, exists_a_b, set_again};
ghost use Rattle.zresponses.specs.effects.support.Samples.{add_a, set_each_again, watches_a};

/// The watch of a query, from its reply. Only `exists` waits for a creation.
pub fn watches_of_queries()
    ensures there { query_wish (Exists at_a) (reply.Exists some_stat) ≡ Waits Data at_a ∷ [] }
    ensures missing { query_wish (Exists at_a) (reply.Refused NoNode) ≡ Waits Missing at_a ∷ [] }
    ensures bytes { query_wish (GetData at_a) (reply.Data [] some_stat) ≡ Waits Data at_a ∷ [] }
    ensures no_bytes { query_wish (GetData at_a) (reply.Refused NoNode) ≡ [] }
    ensures names { query_wish (GetChildren at_a) (reply.Children [])
        ≡ Waits Children at_a ∷ [] }
    ensures no_names { query_wish (GetChildren at_a) (reply.Refused NoNode) ≡ [] }
{}

/// The watch of a request: that of its first call, if it asks for one.
pub fn watches_of_requests()
    ensures asked { wishes (asked.Exists (look_a true)) (exists_a ∷ [])
        (reply.Exists some_stat ∷ []) ≡ Waits Data at_a ∷ [] }
    ensures unasked { wishes (asked.Exists (look_a false)) (exists_a ∷ [])
        (reply.Exists some_stat ∷ []) ≡ [] }
    ensures bytes { wishes (asked.GetData (look_a true)) (Query (GetData at_a) ∷ [])
        (reply.Data [] some_stat ∷ []) ≡ Waits Data at_a ∷ [] }
    ensures names { wishes (asked.GetChildren (look_a true)) (Query (GetChildren at_a) ∷ [])
        (reply.Children [] ∷ []) ≡ Waits Children at_a ∷ [] }
    ensures both { wishes (asked.GetChildren2 (look_a true))
        (Query (GetChildren at_a) ∷ exists_a ∷ []) (reply.Children [] ∷ reply.Exists some_stat ∷ [])
        ≡ Waits Children at_a ∷ [] }
    ensures acl { wishes (asked.GetAcl (look_a true).path) (exists_a ∷ [])
        (reply.Exists some_stat ∷ []) ≡ [] }
    ensures no_reply { first_wish (exists_a ∷ []) [] ≡ [] }
{}

/// A re-registered watch: its event is sent if the client hasn't seen the change. The node was last
/// written by change 2, and its children last changed in change 3.
pub fn watches_set_again()
    ensures seen { wish_again Data (pos 2) at_a (reply.Exists some_stat) ≡ Waits Data at_a ∷ [] }
    ensures written { wish_again Data (pos 1) at_a (reply.Exists some_stat)
        ≡ Reports (event NodeDataChanged at_a) ∷ [] }
    ensures gone { wish_again Data (pos 9) at_a (reply.Refused NoNode)
        ≡ Reports (event NodeDeleted at_a) ∷ [] }
    ensures made { wish_again Missing (pos 9) at_a (reply.Exists some_stat)
        ≡ Reports (event NodeCreated at_a) ∷ [] }
    ensures missing { wish_again Missing (pos 0) at_a (reply.Refused NoNode)
        ≡ Waits Missing at_a ∷ [] }
    ensures children_seen { wish_again Children (pos 3) at_a (reply.Exists some_stat)
        ≡ Waits Children at_a ∷ [] }
    ensures children { wish_again Children (pos 2) at_a (reply.Exists some_stat)
        ≡ Reports (event NodeChildrenChanged at_a) ∷ [] }
    ensures children_gone { wish_again Children (pos 9) at_a (reply.Refused NoNode)
        ≡ Reports (event NodeDeleted at_a) ∷ [] }
    ensures no_query { call_again Data (pos 9) (Query (GetData at_a)) (reply.Refused NoNode) ≡ [] }
{}

/// All re-registered watches: data watches, those for a creation, and child watches.
pub fn all_watches_set_again()
    ensures each { wishes_again Missing (pos 1) (exists_a ∷ exists_a_b ∷ [])
        (reply.Refused NoNode ∷ reply.Exists some_stat ∷ [])
        ≡ Waits Missing at_a ∷ Reports (event NodeCreated at_a_b) ∷ [] }
    ensures all { wishes (asked.SetWatches set_again) (exists_a ∷ exists_a ∷ exists_a_b ∷ [])
        (reply.Exists some_stat ∷ reply.Refused NoNode ∷ reply.Exists some_stat ∷ [])
        ≡ Reports (event NodeDataChanged at_a) ∷ Waits Missing at_a
        ∷ Reports (event NodeChildrenChanged at_a_b) ∷ [] }
{}

/// An added watch, whether its node exists or not. A persistent one is of data and of children.
pub fn watches_are_added()
    ensures persistent { wishes (asked.AddWatch (add_a 0)) (exists_a ∷ [])
        (reply.Exists some_stat ∷ []) ≡ Waits EachData at_a ∷ Waits EachChildren at_a ∷ [] }
    ensures recursive { wishes (asked.AddWatch (add_a 1)) (exists_a ∷ [])
        (reply.Exists some_stat ∷ []) ≡ Waits Recursive at_a ∷ [] }
    ensures missing { wishes (asked.AddWatch (add_a 1)) (exists_a ∷ [])
        (reply.Refused NoNode ∷ []) ≡ Waits Recursive at_a ∷ [] }
    ensures again { wishes (asked.SetWatches2 set_each_again)
        (exists_a ∷ exists_a ∷ exists_a_b ∷ exists_a ∷ exists_a_b ∷ [])
        (reply.Exists some_stat ∷ reply.Refused NoNode ∷ reply.Exists some_stat
        ∷ reply.Exists some_stat ∷ reply.Refused NoNode ∷ [])
        ≡ Reports (event NodeDataChanged at_a) ∷ Waits Missing at_a
        ∷ Reports (event NodeChildrenChanged at_a_b)
        ∷ Waits EachData at_a ∷ Waits EachChildren at_a ∷ Waits Recursive at_a_b ∷ [] }
{}

/// Watches that are checked, or removed.
pub fn watches_are_removed()
    ensures checked { wishes (asked.CheckWatches (watches_a 1)) (exists_a ∷ [])
        (reply.Exists some_stat ∷ []) ≡ Has typed.Children at_a ∷ [] }
    ensures removed { wishes (asked.RemoveWatches (watches_a 3)) (exists_a ∷ [])
        (reply.Refused NoNode ∷ []) ≡ Ends typed.Any at_a ∷ [] }
    ensures of_data { wishes (asked.RemoveWatches (watches_a 2)) (exists_a ∷ [])
        (reply.Refused NoNode ∷ []) ≡ Ends typed.Data at_a ∷ [] }
{}
