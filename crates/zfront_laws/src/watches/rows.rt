//! Worked examples of the definitions, as clauses. The functions do nothing.

ghost use Rattle.std.specs.Prelude.{◌≡◌, ◌⊎◌, ℕ, ℤ, true, false, List, [], ◌∷◌, None, Some, Ok};
ghost use Rattle.std.specs.FinMap.{get, insert};
ghost use Rattle.ztree.specs.declared.node.Node.{Node};
ghost use Rattle.ztree.specs.Tree.{Nodes, Tree, has_node};
ghost use Rattle.ztree.specs.support.Samples.{at_a, at_a_b};
ghost use Rattle.zjute.specs.Frames.{Whole, next_of};
ghost use Rattle.zjute.specs.declared.request.Asked.TheVariants as asked;
ghost use Rattle.zjute.specs.declared.request.Request.{Request};
ghost use Rattle.zjute.specs.declared.request.SetWatches.{SetWatches};
ghost use Rattle.zresponses.specs.effects.support.Samples.{set_again};
ghost use Rattle.zresponses.specs.declared.answer.Answer.{Answer};
ghost use Rattle.zwatches.specs.changes.Events.{event};
ghost use Rattle.zwatches.specs.declared.changes.event.Event.{Event};
ghost use Rattle.zjute.specs.declared.event.EventKind.TheVariants.{NodeChildrenChanged};
ghost use Rattle.zjute.specs.declared.event.EventKind.TheVariants.{NodeDataChanged};
ghost use Rattle.zjute.specs.declared.event.EventKind.TheVariants.{NodeCreated, NodeDeleted};
ghost use Rattle.zwatches.specs.changes.Laws.{data_at, children_at};
ghost use Rattle.zwatches.specs.declared.kind.Kind.TheVariants.{Data, Missing, Children, EachData, EachChildren, Recursive};
ghost use Rattle.zjute.specs.declared.watch_type.WatchType.TheVariants as typed;
ghost use Rattle.zwatches.specs.Watches.{watch};
ghost use Rattle.zwatches.specs.declared.watch.Watch.{Watch};
ghost use Rattle.zwatches.specs.Events.{fires};
ghost use Rattle.ztree_service.specs.log.Logs.{Log, calls_of, tree_after};
ghost use Rattle.zconnections.specs.buffers.Inputs.InputView.{Opened};
ghost use Rattle.zconnections.specs.buffers.Streams.{bytes_of, phase_of};
ghost use Rattle.zconnections.specs.declared.buffers.phase.Phase.TheVariants.{Silent, Speaking};
ghost use Rattle.zconnections.specs.Tables.{TablesView, is_open};
ghost use Rattle.zfront.specs.Requests.{request_in};
ghost use Rattle.zfront_laws.specs.Runs.{Sent, Took, Takes};
ghost use Rattle.zfront_laws.specs.watches.Laws.{Arriving, Brings, none_asked, opening_scene};
ghost use Rattle.zfront_laws.specs.watches.Laws.{requests_in};
ghost use Rattle.zfront_laws.specs.watches.Watching.{Answered, Fired, Missed, Moved, Said, Set};
ghost use Rattle.zfront_laws.specs.watches.Watching.{IsClose, IsGone, IsMissed, IsOfTheLast};
ghost use Rattle.zfront_laws.specs.watches.Watching.{Dropped, IsSameAt, IsUnchanged, LostChild, is_told, takes_more};
ghost use Rattle.zfront_laws.specs.watches.Watching.{May, Scene, Stands, tree_of};

/// What a watch waits for, by its kind. A child watch ignores the data, and a data watch ignores
/// the children.
pub fn what_is_waited_for()
    ensures data { (before now : Nodes) → data_at now [] ≡ data_at before []
        → IsSameAt Data [] before now }
    ensures missing { (before now : Nodes) → data_at now [] ≡ data_at before []
        → IsSameAt Missing [] before now }
    ensures children { (before now : Nodes) → children_at before [] ≡ Some 4
        → children_at now [] ≡ Some 5 → IsSameAt Children [] before now → ⊥ }
{}

/// `exists` sets a watch for a creation only where no node exists.
pub fn where_watches_are_set()
    ensures missing { (s : Scene) → has_node (tree_of s).nodes [] ≡ true
        → May none_asked (Set 1 Missing []) s → ⊥ }
    ensures data { (s : Scene) → has_node (tree_of s).nodes [] ≡ false
        → May none_asked (Set 1 Data []) s → ⊥ }
{}

/// A watch that stays is told of each change. A recursive one waits for the nodes below its path,
/// and not for others. Once it is told of a node, it knows that node as it is.
pub fn what_stays()
    ensures below { (before now : Nodes) → (data_at now at_a_b ≡ data_at before at_a_b → ⊥)
        → IsSameAt Recursive at_a before now → ⊥ }
    ensures sibling { (before : Nodes) (n : Node) → IsSameAt Recursive at_a_b before
        (insert before at_a n) }
    ensures told { is_told (event NodeDataChanged at_a) (watch at_a EachData 1) ≡ true }
    ensures told_below { is_told (event NodeCreated at_a_b) (watch at_a Recursive 1) ≡ true }
    ensures untold { is_told (event NodeDataChanged at_a) (watch at_a EachChildren 1) ≡ false }
    ensures other { is_told (event NodeDataChanged at_a) (watch at_a_b Recursive 1) ≡ false }
    ensures once { is_told (event NodeDataChanged at_a) (watch at_a Data 1) ≡ false }
{}

/// A watch that stays is set, and watches are removed, only by a request of their own connection.
pub fn who_asks()
    ensures added { (s : Scene) → May none_asked (Set 1 Recursive []) s → ⊥ }
    ensures removed { (s : Scene) → May none_asked (Dropped 1 typed.Any []) s → ⊥ }
    ensures other { (s : Scene) (bytes : List ℕ)
        → May (Arriving 1 bytes s) (Dropped 2 typed.Any []) s → ⊥ }
{}

/// A client that has seen change 1 re-registers a data watch of /a, a watch for the creation of /a,
/// and a child watch of /a/b. It missed a write of /a if that was after change 1. It missed none of
/// a path that it doesn't name for that kind.
#[tactic(auto, unfolding(zpath::specs::Faults::fault_of))]
pub fn what_is_missed()
    ensures written { (nodes : Nodes) (n : Node) → get nodes at_a ≡ Some n → n.mzxid ≡ 2
        → IsMissed set_again nodes NodeDataChanged at_a }
    ensures seen { (nodes : Nodes) (n : Node) → get nodes at_a ≡ Some n → n.mzxid ≡ 1
        → IsMissed set_again nodes NodeDataChanged at_a → ⊥ }
    ensures unnamed { (nodes : Nodes) → IsMissed set_again nodes NodeDataChanged at_a_b → ⊥ }
    ensures other_list { (nodes : Nodes)
        → IsMissed set_again nodes NodeChildrenChanged at_a → ⊥ }
    ensures gone { (nodes : Nodes) → get nodes at_a ≡ None
        → IsMissed set_again nodes NodeDeleted at_a }
    ensures there { (nodes : Nodes) (n : Node) → get nodes at_a ≡ Some n
        → IsMissed set_again nodes NodeDeleted at_a → ⊥ }
{}

/// A missed event is sent only to a connection that re-registers its watch, in that step: by a
/// whole request on that connection. A tick has none, and the first frame is no request.
pub fn who_missed_it()
    ensures own { (s : Scene) (bytes frame : List ℕ) (r : Request) (set : SetWatches)
        → phase_of s.tables.streams 1 ≡ Some (Speaking 7) → bytes_of s.tables.streams 1 ≡ []
        → next_of bytes ≡ Whole frame [] → request_in s.base frame ≡ Ok r
        → r.asked ≡ asked.SetWatches set → Arriving 1 bytes s 1 (asked.SetWatches set) }
    ensures allowed { (s : Scene) (bytes : List ℕ) (set : SetWatches) (e : Event)
        → Arriving 1 bytes s 1 (asked.SetWatches set) → IsMissed set (tree_of s).nodes e.kind e.path
        → May (Arriving 1 bytes s) (Missed 1 e) s }
    ensures other { (s : Scene) (bytes : List ℕ) (e : Event)
        → May (Arriving 1 bytes s) (Missed 2 e) s → ⊥ }
    ensures tick { (s : Scene) (e : Event) → May none_asked (Missed 1 e) s → ⊥ }
    ensures first { (frame : List ℕ) → requests_in (Some Silent) (frame ∷ []) ≡ [] }
{}

/// A connection gets no answer while one of its watches has missed a change, except the answer to
/// the close of its session. No event is sent without a cause, or to a watch without a change. No
/// connection closes silently, and a connection with a session gets no word's text.
pub fn what_may_not_happen()
    ensures answered { (s : Scene) (w : Watch) (xid : ℤ) (answer : Answer) → Stands s w
        → w.connection ≡ 1 → (IsUnchanged s w → ⊥) → (IsClose s 1 → ⊥)
        → May none_asked (Answered 1 xid answer) s → ⊥ }
    ensures fired { (s : Scene) (e : Event) → (IsOfTheLast s e → ⊥) → (IsGone s e → ⊥)
        → (LostChild s e → ⊥) → May none_asked (Fired e) s → ⊥ }
    ensures changed { (s : Scene) (w : Watch) → Stands s w → IsUnchanged s w
        → fires NodeDataChanged [] w ≡ true → takes_more w.kind ≡ false
        → May none_asked (Fired (event NodeDataChanged [])) s → ⊥ }
    ensures own { (s : Scene) → phase_of s.tables.streams 1 ≡ Some Silent → IsClose s 1 → ⊥ }
    ensures said { (s : Scene) (session : ℕ) (bytes : List ℕ)
        → phase_of s.tables.streams 1 ≡ Some (Speaking session)
        → May none_asked (Said 1 bytes) s → ⊥ }
    ensures moved { (s : Scene) (t : TablesView) → is_open s.tables 1 ≡ true
        → is_open t 1 ≡ false → May none_asked (Moved t) s → ⊥ }
{}

/// A scene begins with the given log and tables, and its tree is the given one after that log.
/// Taking updates leaves it unchanged. Opening a connection and sending a chunk make no call.
pub fn what_opens()
    ensures log { (base : ℕ) (start : Tree) (log : Log) (t : TablesView)
        → (opening_scene base start log t).log ≡ log }
    ensures tables { (base : ℕ) (start : Tree) (log : Log) (t : TablesView)
        → (opening_scene base start log t).tables ≡ t }
    ensures tree { (base : ℕ) (start : Tree) (log : Log) (t : TablesView)
        → tree_of (opening_scene base start log t) ≡ tree_after start (calls_of log) }
    ensures first { (base : ℕ) (start : Tree) (t : TablesView)
        → tree_of (opening_scene base start [] t) ≡ start }
    ensures taken { (s t : Scene) → Brings Took s t → t ≡ s }
    ensures there { (s t : Scene) → Brings (Takes (Opened 1)) s t → t.log ≡ s.log }
    ensures sent { (s t : Scene) → Brings Sent s t → t.log ≡ s.log }
{}
