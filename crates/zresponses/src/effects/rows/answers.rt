//! The effect of calls and answers on the tables.

ghost use Rattle.std.specs.Prelude.{◌≡◌, ℕ, pos, true, false, [], ◌∷◌, None, Some};
ghost use Rattle.std.specs.FinSet.{insert};
ghost use Rattle.ztree.specs.Tree.{Tree};
ghost use Rattle.ztree.specs.support.Samples.{at_a, at_a_b, some_stat};
ghost use Rattle.zcalls.specs.declared.call.Call.TheVariants.{Update};
ghost use Rattle.zcalls.specs.declared.call.Update.TheVariants as act;
ghost use Rattle.zcalls.specs.declared.refusal.Refusal.TheVariants.{NoNode};
ghost use Rattle.zcalls.specs.declared.reply.Reply.TheVariants as reply;
ghost use Rattle.zjute.specs.declared.code.Code.TheVariants as code;
ghost use Rattle.zjute.specs.declared.event.EventKind.TheVariants.{NodeCreated, NodeDeleted, NodeDataChanged};
ghost use Rattle.zjute.specs.declared.reply.Body.TheVariants as body;
ghost use Rattle.zjute.specs.declared.request.Asked.TheVariants as asked;
ghost use Rattle.zwatches.specs.changes.Events.{event};
ghost use Rattle.zwatches.specs.changes.support.Samples.{create_a_b, set_a_b, delete_a_b, gone_a_b};
ghost use Rattle.zresponses.specs.Answers.{done, failed};
ghost use Rattle.zresponses.specs.support.Samples.{clock};
ghost use Rattle.zwatches.specs.declared.kind.Kind.TheVariants.{Data, Recursive};
ghost use Rattle.zwatches.specs.Removal.{has_meant, without_meant};
ghost use Rattle.zjute.specs.declared.watch_type.WatchType.TheVariants as typed;
ghost use Rattle.zwatches.specs.Watches.{watch, is_full};
ghost use Rattle.zconnections.specs.Tables.{TablesView, closed, sent};
ghost use Rattle.zconnections.specs.Reporting.{event_frame, reported, reported_all};
ghost use Rattle.zresponses.specs.declared.effects.wish.Wish.TheVariants.{Waits, Reports, Has, Ends};
ghost use Rattle.zresponses.specs.effects.Frames.{answer_frame};
ghost use Rattle.zresponses.specs.effects.Replying.{absorbed, absorbed_all, replied};
ghost use Rattle.zresponses.specs.effects.Watching.{earlier, fault_of, first_fault, granted};
ghost use Rattle.zresponses.specs.effects.Watching.{granted_all};
ghost use Rattle.zresponses.specs.effects.Answering.{answered, now_of};
ghost use Rattle.zresponses.specs.effects.support.Samples.{look_a, exists_a, now, request_9};
ghost use Rattle.zresponses.specs.effects.support.Samples.{add_a, watches_a};

/// The events of each call are sent.
pub fn calls_are_absorbed()
    ensures set { (t : TablesView) → absorbed (Update (act.SetData set_a_b)) (reply.Set some_stat) t
        ≡ reported (event NodeDataChanged at_a_b) t }
    ensures refused { (t : TablesView)
        → absorbed (Update (act.Create create_a_b)) (reply.Refused NoNode) t ≡ t }
    ensures query { (t : TablesView) → absorbed exists_a (reply.Exists some_stat) t ≡ t }
    ensures both { (t : TablesView)
        → absorbed_all (Update (act.SetData set_a_b) ∷ Update (act.Delete delete_a_b) ∷ [])
        (reply.Set some_stat ∷ reply.Deleted ∷ []) t
        ≡ reported_all gone_a_b (reported (event NodeDataChanged at_a_b) t) }
    ensures no_reply { (t : TablesView)
        → absorbed_all (Update (act.SetData set_a_b) ∷ []) [] t ≡ t }
{}

/// An answer is sent. After AuthFailed the connection is closed.
pub fn answers_are_reported()
    ensures done { (t : TablesView) → replied (pos 8) 1 (pos 9) (done body.Nothing) t
        ≡ sent 1 (answer_frame (pos 8) (pos 9) (done body.Nothing)) t }
    ensures auth { (t : TablesView) → replied (pos 8) 1 (pos 9) (failed code.AuthFailed) t
        ≡ closed 1 (sent 1 (answer_frame (pos 8) (pos 9) (failed code.AuthFailed)) t) }
{}

/// Wishes are granted, if there is room.
pub fn wishes_are_granted()
    ensures waits { (t : TablesView) → is_full t.limits t.watches (watch at_a Data 1) ≡ false
        → granted 1 (Waits Data at_a) t
        ≡ record t { watches = insert t.watches (watch at_a Data 1) } }
    ensures room { (t : TablesView) → is_full t.limits t.watches (watch at_a Data 1) ≡ false
        → fault_of 1 (Waits Data at_a) t ≡ None }
    ensures full { (t : TablesView) → is_full t.limits t.watches (watch at_a Data 1) ≡ true
        → granted 1 (Waits Data at_a) t ≡ t }
    ensures reports { (t : TablesView) → granted 1 (Reports (event NodeCreated at_a)) t
        ≡ sent 1 (event_frame (event NodeCreated at_a)) t }
    ensures no_room { (t : TablesView) → is_full t.limits t.watches (watch at_a Data 1) ≡ true
        → first_fault 1 (Waits Data at_a ∷ []) t ≡ Some code.SystemError }
    ensures none { (t : TablesView) → first_fault 1 [] t ≡ None }
    ensures order { (t : TablesView)
        → granted_all 1 (Reports (event NodeDeleted at_a) ∷ Reports (event NodeCreated at_a) ∷ []) t
        ≡ sent 1 (event_frame (event NodeCreated at_a))
        (sent 1 (event_frame (event NodeDeleted at_a)) t) }
{}

/// Watches are removed from the table if the connection has some of the type. Else the error is
/// NoWatcher. A check removes none.
pub fn watches_are_ended()
    ensures has { (t : TablesView) → granted 1 (Has typed.Any at_a) t ≡ t }
    ensures ends { (t : TablesView) → granted 1 (Ends typed.Any at_a) t
        ≡ record t { watches = without_meant t.watches 1 typed.Any at_a } }
    ensures found { (t : TablesView) → has_meant t.watches 1 typed.Any at_a ≡ true
        → first_fault 1 (Ends typed.Any at_a ∷ []) t ≡ None }
    ensures no_watch { (t : TablesView) → has_meant t.watches 1 typed.Any at_a ≡ false
        → first_fault 1 (Ends typed.Any at_a ∷ []) t ≡ Some code.NoWatcher }
    ensures unchecked { (t : TablesView) → has_meant t.watches 1 typed.Data at_a ≡ false
        → first_fault 1 (Has typed.Data at_a ∷ []) t ≡ Some code.NoWatcher }
    ensures earlier { earlier (Some code.SystemError) (Some code.NoWatcher)
        ≡ Some code.SystemError }
{}

/// The answer to a request is sent after its events, once its watches are set.
pub fn requests_are_answered()
    ensures now { (t : Tree) → now_of (record t { zxid = 8; time = 4 }) ≡ now }
    ensures ping { (t : TablesView) → answered clock now 1 (request_9 asked.Ping) [] [] t
        ≡ replied (pos 8) 1 (pos 9) (done body.Nothing) t }
    ensures events { (t : TablesView) → answered clock now 1
        (request_9 (asked.Delete (record { path = (look_a false).path; version = pos 0 })))
        (Update (act.Delete delete_a_b) ∷ []) (reply.Deleted ∷ []) t
        ≡ replied (pos 8) 1 (pos 9) (done body.Nothing) (reported_all gone_a_b t) }
    ensures full { (t : TablesView) → is_full t.limits t.watches (watch at_a Data 1) ≡ true
        → answered clock now 1 (request_9 (asked.Exists (look_a true))) (exists_a ∷ [])
        (reply.Exists some_stat ∷ []) t
        ≡ replied (pos 8) 1 (pos 9) (failed code.SystemError) t }
    ensures added { (t : TablesView) → is_full t.limits t.watches (watch at_a Recursive 1) ≡ false
        → answered clock now 1 (request_9 (asked.AddWatch (add_a 1))) (exists_a ∷ [])
        (reply.Exists some_stat ∷ []) t
        ≡ replied (pos 8) 1 (pos 9) (done (body.Error code.Ok)) (record t {
          watches = insert t.watches (watch at_a Recursive 1);
        }) }
    ensures removed { (t : TablesView) → has_meant t.watches 1 typed.Any at_a ≡ true
        → answered clock now 1 (request_9 (asked.RemoveWatches (watches_a 3))) (exists_a ∷ [])
        (reply.Exists some_stat ∷ []) t
        ≡ replied (pos 8) 1 (pos 9) (done body.Nothing) (record t {
          watches = without_meant t.watches 1 typed.Any at_a;
        }) }
{}
