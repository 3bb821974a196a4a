//! Worked examples of the definitions. The functions do nothing.

ghost use Rattle.std.specs.Prelude.{◌≡◌, [], ◌∷◌, true, false};
ghost use Rattle.std.specs.declared.cmp.Ordering.TheVariants.{Less};
ghost use Rattle.std.specs.FinSet.{contains, from_list};
ghost use Rattle.std.specs.Ordering.{nat_cmp};
ghost use Rattle.zwatches.specs.declared.fault.WatchFault.TheVariants.{Full, Memory};
ghost use Rattle.zjute.specs.declared.event.EventKind.TheVariants as event;
ghost use Rattle.zjute.specs.declared.event.EventKind.TheVariants.{NodeCreated, NodeDeleted, NodeDataChanged, NodeChildrenChanged};
ghost use Rattle.zwatches.specs.declared.kind.Kind.TheVariants.{Data, Missing, Children, EachData, EachChildren, Recursive};
ghost use Rattle.zjute.specs.declared.watch_type.WatchType.TheVariants as typed;
ghost use Rattle.zwatches.specs.Watches.{fires_once, is_full, place, share, watch, watch_cmp};
ghost use Rattle.zwatches.specs.Watches.{IsSetFault};
ghost use Rattle.zwatches.specs.Events.{above, fired_at, fires, is_awaited, reported, unfired};
ghost use Rattle.zwatches.specs.Events.{without, Lists};
ghost use Rattle.zwatches.specs.Removal.{has_meant, has_type, is_meant, without_meant};
ghost use Rattle.zwatches.specs.Samples.{at_a, at_a_b, at_a_b_c, at_ab, at_b, some_table};
ghost use Rattle.zwatches.specs.Samples.{lasting_table, five_of_all, two_each};

/// Watches differ by path, by kind and by connection.
pub fn watches_differ()
    ensures path { watch_cmp (watch [] Children 2) (watch at_a Data 1) ≡ Less }
    ensures deeper { watch_cmp (watch at_a Children 2) (watch at_a_b Data 1) ≡ Less }
    ensures missing { watch_cmp (watch at_a Data 2) (watch at_a Missing 1) ≡ Less }
    ensures children { watch_cmp (watch at_a Missing 2) (watch at_a Children 1) ≡ Less }
    ensures connection { watch_cmp (watch at_a Data 1) (watch at_a Data 2) ≡ Less }
{}

/// A created node fires the watches that waited for it, and those of its data. The parent's
/// watches don't fire: the change of its children is a separate event.
pub fn created()
    ensures missing { fires NodeCreated at_a_b (watch at_a_b Missing 1) ≡ true }
    ensures node { fires NodeCreated at_a_b (watch at_a_b Data 1) ≡ true }
    ensures children { fires NodeCreated at_a_b (watch at_a_b Children 1) ≡ false }
    ensures above { fires NodeCreated at_a_b (watch at_a Children 1) ≡ false }
{}

/// A change of a node's data fires the watches of its data only.
pub fn data_changed()
    ensures node { fires NodeDataChanged at_a (watch at_a Data 1) ≡ true }
    ensures missing { fires NodeDataChanged at_a (watch at_a Missing 1) ≡ false }
    ensures children { fires NodeDataChanged at_a (watch at_a Children 1) ≡ false }
    ensures below { fires NodeDataChanged at_a (watch at_a_b Data 1) ≡ false }
{}

/// A deleted node fires the watches of its data and of its children.
pub fn deleted()
    ensures node { fires NodeDeleted at_a (watch at_a Data 1) ≡ true }
    ensures children { fires NodeDeleted at_a (watch at_a Children 1) ≡ true }
    ensures missing { fires NodeDeleted at_a (watch at_a Missing 1) ≡ false }
    ensures above { fires NodeDeleted at_a (watch [] Children 1) ≡ false }
{}

/// A change of a node's children fires the watches of its children only.
pub fn children_changed()
    ensures children { fires NodeChildrenChanged at_a (watch at_a Children 1) ≡ true }
    ensures node { fires NodeChildrenChanged at_a (watch at_a Data 1) ≡ false }
    ensures missing { fires NodeChildrenChanged at_a (watch at_a Missing 1) ≡ false }
    ensures below { fires NodeChildrenChanged at_a (watch at_a_b Children 1) ≡ false }
{}

/// Other kinds of events fire no watch.
pub fn other_events()
    ensures none { fired_at event.None at_a ≡ [] }
    ensures of_data { fired_at event.DataWatchRemoved at_a ≡ [] }
    ensures of_children { fired_at event.ChildWatchRemoved at_a ≡ [] }
    ensures persistent { fired_at event.PersistentWatchRemoved at_a ≡ [] }
{}

/// The connections that an event notifies, and the watches that remain.
pub fn one_event()
    ensures reported_of_both { contains (reported some_table NodeDeleted at_a) 1 ≡ true }
    ensures reported_of_one { contains (reported some_table NodeDeleted at_a) 2 ≡ true }
    ensures above { contains (reported some_table NodeDeleted at_a) 3 ≡ false }
    ensures missing { contains (reported some_table NodeCreated at_a_b) 4 ≡ true }
    ensures not_reported { contains (reported some_table NodeDataChanged at_a) 2 ≡ false }
    ensures gone { contains (unfired some_table NodeDataChanged at_a) (watch at_a Data 1) ≡ false }
    ensures stays { contains (unfired some_table NodeDataChanged at_a) (watch at_a Children 1)
        ≡ true }
{}

/// A persistent watch is of the data and of the children of its node, and of no other.
pub fn persistent()
    ensures created { fires NodeCreated at_a (watch at_a EachData 1) ≡ true }
    ensures changed { fires NodeDataChanged at_a (watch at_a EachData 1) ≡ true }
    ensures deleted { fires NodeDeleted at_a (watch at_a EachData 1) ≡ true }
    ensures not_children { fires NodeChildrenChanged at_a (watch at_a EachData 1) ≡ false }
    ensures children { fires NodeChildrenChanged at_a (watch at_a EachChildren 1) ≡ true }
    ensures gone { fires NodeDeleted at_a (watch at_a EachChildren 1) ≡ true }
    ensures not_data { fires NodeDataChanged at_a (watch at_a EachChildren 1) ≡ false }
    ensures below { fires NodeDataChanged at_a_b (watch at_a EachData 1) ≡ false }
    ensures above { fires NodeDeleted [] (watch at_a EachChildren 1) ≡ false }
{}

/// A recursive watch is of its node and of all below it, and not of a sibling. A change of children
/// fires none.
pub fn recursive()
    ensures positions { above at_a ≡ place [] Recursive ∷ place at_a Recursive ∷ [] }
    ensures own { fires NodeDataChanged at_a (watch at_a Recursive 1) ≡ true }
    ensures child { fires NodeCreated at_a_b (watch at_a Recursive 1) ≡ true }
    ensures below { fires NodeDeleted at_a_b_c (watch at_a Recursive 1) ≡ true }
    ensures root { fires NodeDataChanged at_a_b (watch [] Recursive 1) ≡ true }
    ensures sibling { fires NodeDataChanged at_b (watch at_a Recursive 1) ≡ false }
    ensures name { fires NodeDataChanged at_ab (watch at_a Recursive 1) ≡ false }
    ensures parent { fires NodeDataChanged at_a (watch at_a_b Recursive 1) ≡ false }
    ensures children { fires NodeChildrenChanged at_a (watch at_a Recursive 1) ≡ false }
{}

/// Which watches stay when they fire, and whom an event of /a notifies, each once.
pub fn who_stays()
    ensures once { fires_once Data ≡ true }
    ensures persistent { fires_once EachData ≡ false }
    ensures children { fires_once EachChildren ≡ false }
    ensures recursive { fires_once Recursive ≡ false }
    ensures gone { contains (unfired lasting_table NodeDataChanged at_a) (watch at_a Data 1)
        ≡ false }
    ensures stays { contains (unfired lasting_table NodeDataChanged at_a) (watch at_a EachData 1)
        ≡ true }
    ensures reported { contains (reported lasting_table NodeDeleted at_a) 1 ≡ true }
    ensures below { contains (reported lasting_table NodeDeleted at_a_b) 2 ≡ true }
    ensures other { contains (reported lasting_table NodeDeleted at_a_b) 1 ≡ false }
{}

/// Whether a deletion is awaited. A watch for a creation doesn't wait for it.
pub fn what_is_awaited()
    ensures node { is_awaited some_table NodeDeleted at_a ≡ true }
    ensures missing { is_awaited some_table NodeDeleted at_a_b ≡ false }
    ensures below { is_awaited lasting_table NodeDeleted at_a_b_c ≡ true }
    ensures sibling { is_awaited lasting_table NodeDeleted at_b ≡ false }
{}

/// The watches that a request removes: those of its own connection, of the type, at the path.
pub fn what_is_removed()
    ensures children { has_type typed.Children EachChildren ≡ true }
    ensures not_data { has_type typed.Children EachData ≡ false }
    ensures of_data { has_type typed.Data Missing ≡ true }
    ensures recursive { has_type typed.Data Recursive ≡ true }
    ensures any { has_type typed.Any Recursive ≡ true }
    ensures own { is_meant 1 typed.Any at_a (watch at_a Data 1) ≡ true }
    ensures other { is_meant 1 typed.Any at_a (watch at_a Data 2) ≡ false }
    ensures below { is_meant 1 typed.Any at_a (watch at_a_b Data 1) ≡ false }
    ensures found { has_meant lasting_table 2 typed.Data at_a ≡ true }
    ensures none { has_meant lasting_table 3 typed.Any at_a ≡ false }
    ensures gone { contains (without_meant lasting_table 2 typed.Any at_a) (watch at_a Recursive 2)
        ≡ false }
    ensures half { contains (without_meant lasting_table 1 typed.Data at_a)
        (watch at_a EachChildren 1) ≡ true }
    ensures stays { contains (without_meant lasting_table 2 typed.Any at_a) (watch at_a EachData 1)
        ≡ true }
{}

/// What remains after a connection is forgotten.
pub fn forgotten()
    ensures gone { contains (without some_table 1) (watch at_a Children 1) ≡ false }
    ensures stays { contains (without some_table 1) (watch at_a Children 2) ≡ true }
{}

/// Lists of numbers, each once, in rising order.
pub fn lists()
    ensures twice { Lists (1 ∷ 1 ∷ []) (from_list {R = nat_cmp} (1 ∷ [])) → ⊥ }
    ensures falling { Lists (2 ∷ 1 ∷ []) (from_list {R = nat_cmp} (1 ∷ 2 ∷ [])) → ⊥ }
    ensures another { Lists [] (from_list {R = nat_cmp} (1 ∷ [])) → ⊥ }
{}

/// How many watches there are of a connection, which one more is refused, and when each fault is
/// returned.
pub fn limits()
    ensures two { share some_table 1 ≡ 2 }
    ensures one { share some_table 2 ≡ 1 }
    ensures none { share some_table 5 ≡ 0 }
    ensures most { is_full five_of_all some_table (watch at_b Data 5) ≡ true }
    ensures each { is_full two_each some_table (watch at_b Data 1) ≡ true }
    ensures room { is_full two_each some_table (watch at_b Data 2) ≡ false }
    ensures again { is_full two_each some_table (watch at_a Data 1) ≡ false }
    ensures full { IsSetFault false Full → ⊥ }
    ensures memory { IsSetFault true Memory → ⊥ }
{}
