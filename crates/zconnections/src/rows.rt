//! Worked examples of the definitions. The functions do nothing.

ghost use Rattle.std.specs.Prelude.{◌≡◌, ◌++◌, ℕ, true, false, List, [], ◌∷◌, None, Some};
ghost use Rattle.std.specs.FinMap.{empty, get, insert, remove};
ghost use Rattle.std.specs.FinSet as sets;
ghost use Rattle.std.specs.Ordering.{nat_cmp};
ghost use Rattle.ztree.specs.Tree.{Path, Sessions};
ghost use Rattle.ztree.specs.declared.session.Session.{Session};
ghost use Rattle.zcalls.specs.declared.call.Create.{Create};
ghost use Rattle.zcalls.specs.declared.call.Delete.{Delete};
ghost use Rattle.zcalls.specs.declared.call.Lifetime.TheVariants as lifetime;
ghost use Rattle.zcalls.specs.declared.call.Part.TheVariants as part;
ghost use Rattle.zcalls.specs.declared.call.Update.TheVariants as act;
ghost use Rattle.zcalls.specs.declared.refusal.Refusal.{Refusal};
ghost use Rattle.zcalls.specs.declared.reply.PartReply.{PartReply};
ghost use Rattle.zcalls.specs.declared.reply.Reply.TheVariants as reply;
ghost use Rattle.zjute.specs.declared.event.EventKind.TheVariants.{NodeDataChanged};
ghost use Rattle.zconnections.specs.declared.buffers.phase.Phase.TheVariants.{Closing, Silent, Speaking};
ghost use Rattle.zconnections.specs.buffers.Streams.{phase_of};
ghost use Rattle.zconnections.specs.attachments.Attachments.{AttachmentsView, with_changed, with_ephemeral};
ghost use Rattle.zconnections.specs.attachments.support.Samples.{some_attachments};
ghost use Rattle.zconnections.specs.Tables.{TablesView, closed, connection_of, may_send};
ghost use Rattle.zconnections.specs.Tables.{seated, sent, session_in, taken_up};
ghost use Rattle.zconnections.specs.Reporting.{event_frame, in_order, sent_on};
ghost use Rattle.zconnections.specs.Sweeping.{gone, made_by, noted, swept};

/// Whether bytes may be sent in each phase of a connection, and its session.
pub fn phases()
    ensures silent { may_send (Some Silent) ≡ true }
    ensures speaking { may_send (Some (Speaking 7)) ≡ true }
    ensures closing { may_send (Some Closing) ≡ false }
    ensures absent { may_send None ≡ false }
    ensures session { session_in (Some (Speaking 7)) ≡ Some 7 }
    ensures no_session { session_in (Some Silent) ≡ None }
{}

/// A chunk is queued at the end. After the last chunk of a connection, no other is queued for it.
pub fn chunks()
    ensures sent { (t : TablesView) → phase_of t.streams 3 ≡ Some (Speaking 7)
        → sent 3 (9 ∷ []) t ≡ record t {
          unsent =
              t.unsent ++ record { connection = 3; bytes = 9 ∷ []; is_last = false } ∷ [];
        } }
    ensures not_sent { (t : TablesView) → phase_of t.streams 3 ≡ Some Closing
        → sent 3 (9 ∷ []) t ≡ t }
    ensures closed { (t : TablesView) → phase_of t.streams 3 ≡ Some (Speaking 7)
        → (closed 3 t).unsent
        ≡ t.unsent ++ record { connection = 3; bytes = []; is_last = true } ∷ [] }
    ensures once { (t : TablesView) → phase_of t.streams 3 ≡ Some Closing → closed 3 t ≡ t }
    ensures absent { (t : TablesView) → phase_of t.streams 3 ≡ None → closed 3 t ≡ t }
{}

/// Connection 5 takes session 7, or the tree no longer has it.
pub fn sessions_move()
    ensures taken_up { (t : TablesView) → connection_of t.attachments 7 ≡ Some 3
        → taken_up 7 5 t ≡ seated 7 5 (closed 3 t) }
    ensures from_none { (t : TablesView) → connection_of t.attachments 7 ≡ None
        → taken_up 7 5 t ≡ seated 7 5 t }
    ensures swept { (t : TablesView) → connection_of t.attachments 7 ≡ Some 3
        → swept 7 t ≡ record (closed 3 t) { attachments = remove (closed 3 t).attachments 7 } }
    ensures swept_alone { (t : TablesView) → connection_of t.attachments 7 ≡ None
        → swept 7 t ≡ record t { attachments = remove t.attachments 7 } }
{}

/// The updates by which session 7 made an ephemeral node.
pub fn ephemerals()
    ensures ephemeral { (m : AttachmentsView)
        → made_by (lifetime.Ephemeral 7) m ≡ with_changed with_ephemeral m 7 }
    ensures with_ttl { (m : AttachmentsView) → made_by (lifetime.WithTtl 7) m ≡ m }
    ensures persistent { (m : AttachmentsView) → made_by lifetime.Persistent m ≡ m }
    ensures container { (m : AttachmentsView) → made_by lifetime.Container m ≡ m }
    ensures created { (c : Create) (path : Path) (m : AttachmentsView)
        → noted (act.Create c) (reply.Created path) m ≡ made_by c.kind.lifetime m }
    ensures refused { (c : Create) (why : Refusal) (m : AttachmentsView)
        → noted (act.Create c) (reply.Refused why) m ≡ m }
    ensures parts { (c : Create) (d : Delete) (rs : List PartReply) (m : AttachmentsView)
        → noted (act.Multi (part.Create c ∷ part.Delete d ∷ [])) (reply.Multi rs) m
        ≡ made_by c.kind.lifetime m }
    ensures parts_refused { (c : Create) (why : Refusal) (m : AttachmentsView)
        → noted (act.Multi (part.Create c ∷ [])) (reply.MultiRefused 1 why) m ≡ m }
{}

/// The tables have session 7. It is gone if the tree doesn't have it.
pub fn who_is_gone()
    ensures none_there { gone empty some_attachments ≡ 7 ∷ [] }
    ensures there { (s : Session) → gone (insert empty 7 s) some_attachments ≡ [] }
{}

/// The notification of a watch of the data of `/a`: the length, the header with xid -1 and zxid -1,
/// the number of the event, that of the state, and the path.
pub fn one_event()
    ensures frame { event_frame (record { kind = NodeDataChanged; path = (97 ∷ []) ∷ [] })
        ≡ 0 ∷ 0 ∷ 0 ∷ 30 ∷ 255 ∷ 255 ∷ 255 ∷ 255
        ∷ 255 ∷ 255 ∷ 255 ∷ 255 ∷ 255 ∷ 255 ∷ 255 ∷ 255 ∷ 0 ∷ 0 ∷ 0 ∷ 0
        ∷ 0 ∷ 0 ∷ 0 ∷ 3 ∷ 0 ∷ 0 ∷ 0 ∷ 3 ∷ 0 ∷ 0 ∷ 0 ∷ 2 ∷ 47 ∷ 97 ∷ [] }
    ensures order { in_order (sets.from_list {R = nat_cmp} (5 ∷ 3 ∷ 5 ∷ [])) ≡ 3 ∷ 5 ∷ [] }
    ensures each { (bytes : List ℕ) (t : TablesView)
        → sent_on (3 ∷ 5 ∷ []) bytes t ≡ sent 5 bytes (sent 3 bytes t) }
{}
