//! Worked examples of the definitions. The functions do nothing.

ghost use Rattle.std.specs.Prelude.{◌≡◌, ℕ, pos, negsuc, true, false, List, [], ◌∷◌, ◌++◌, codes, None, Some};
ghost use Rattle.std.specs.FinMap.{empty, get, insert};
ghost use Rattle.ztree.specs.Tree.{Path, Tree, opening_tree};
ghost use Rattle.ztree.specs.support.Samples.{at_a, at_a_b};
ghost use Rattle.ztree.specs.declared.session.Session.{Session};
ghost use Rattle.zcalls.specs.declared.call.Call.{Call};
ghost use Rattle.zcalls.specs.declared.call.Call.TheVariants.{Query, Update};
ghost use Rattle.zcalls.specs.declared.call.Query.TheVariants.{Exists};
ghost use Rattle.zcalls.specs.declared.call.Update.TheVariants.{Close, Open, Ping, Tick};
ghost use Rattle.zcalls.specs.declared.refusal.Refusal.{Refusal};
ghost use Rattle.zcalls.specs.declared.reply.Reply.{Reply};
ghost use Rattle.zcalls.specs.declared.reply.Reply.TheVariants as reply;
ghost use Rattle.zcalls.specs.Step.{due_next, stale_next};
ghost use Rattle.zprotocol.specs.world.PlainTree.{serve};
ghost use Rattle.ztree_service.specs.Sizes.{owned_by};
ghost use Rattle.zjute.specs.Frames.{next_of};
ghost use Rattle.zjute.specs.declared.code.Code.TheVariants as code;
ghost use Rattle.zjute.specs.declared.reply.Body.TheVariants as body;
ghost use Rattle.zjute.specs.declared.request.Asked.TheVariants as asks;
ghost use Rattle.zresponses.specs.Answers.{done, failed};
ghost use Rattle.zresponses.specs.declared.clock.Clock.{Clock};
ghost use Rattle.zwatches.specs.declared.limits.WatchLimits.{WatchLimits};
ghost use Rattle.zpasswords.specs.Passwords.{password_of};
ghost use Rattle.zconnections.specs.declared.buffers.phase.Phase.TheVariants.{Closing, Silent, Speaking};
ghost use Rattle.zconnections.specs.attachments.Attachments.{restored_attachment};
ghost use Rattle.zconnections.specs.Tables.{TablesView, closed, is_open};
ghost use Rattle.zresponses.specs.effects.Greeting.{came_back, turned_away, welcomed};
ghost use Rattle.zresponses.specs.effects.support.Samples.{greeting};
ghost use Rattle.zfront.specs.declared.word.Word.TheVariants as word;
ghost use Rattle.zfront.specs.Front.{FrontView, asked, left_of, may_end, replies_to, takes_nodes, tidied};
ghost use Rattle.zfront.specs.Front.{doomed, ended_by, in_order, stale_by, with_parents};
ghost use Rattle.zfront.specs.Greeting.{opened, opening, returned};
ghost use Rattle.zfront.specs.Reading.{is_too_long, keeps, word_asked};
ghost use Rattle.zfront.specs.Restoring.{all_taken, beginning, no_tables, tables_of};
ghost use Rattle.zfront.specs.Ticking.{tick_calls};
ghost use Rattle.zfront.specs.Walks.{beginning_with, count_below, ephemerals, number_answer, number_below};
ghost use Rattle.zfront.specs.Walks.{walked};
ghost use Rattle.zfront.specs.Words.{text_of_word, word_in};

/// The word at the beginning of the bytes. It counts only instead of a connect request.
pub fn words()
    ensures ruok { word_in (codes "ruok") ≡ Some word.Ruok }
    ensures with_more { word_in (codes "srvr\n") ≡ Some word.Srvr }
    ensures too_short { word_in (codes "ruo") ≡ None }
    ensures unknown { word_in (codes "conf") ≡ None }
    ensures upper_case { word_in (codes "RUOK") ≡ None }
    ensures silent { word_asked (Some Silent) (codes "mntr") ≡ Some word.Mntr }
    ensures speaking { word_asked (Some (Speaking 7)) (codes "mntr") ≡ None }
    ensures closing { word_asked (Some Closing) (codes "mntr") ≡ None }
    ensures absent { word_asked None (codes "mntr") ≡ None }
{}

/// Walks: the texts that begin with another, and how many paths are strictly below one. A session
/// that isn't there has no ephemeral nodes.
pub fn walks()
    ensures front { beginning_with (codes "/a") (codes "/" ∷ codes "/a" ∷ codes "/ab" ∷ [])
        ≡ codes "/a" ∷ codes "/ab" ∷ [] }
    ensures root { count_below (codes "/") (codes "/" ∷ codes "/a" ∷ codes "/a/b" ∷ []) ≡ 2 }
    ensures below { count_below (codes "/a") (codes "/a" ∷ codes "/a/b" ∷ codes "/ab" ∷ []) ≡ 1 }
    ensures number { number_answer (codes "/a") (codes "/" ∷ codes "/a" ∷ codes "/a/b" ∷ [])
        ≡ done (body.Number (pos 1)) }
    ensures no_node { number_answer (codes "/b") (codes "/" ∷ codes "/a" ∷ [])
        ≡ failed code.NoNode }
    ensures null { (t : Tree) → number_below None t ≡ failed code.MarshallingError }
    ensures nobodys { (front : List ℕ) (t : Tree) → get t.sessions 9 ≡ None
        → ephemerals 9 front t ≡ [] }
    ensures other { (t : Tree) → walked 9 asks.Ping t ≡ None }
{}

/// The answers to words.
pub fn words_are_answered()
    ensures ruok { (v : FrontView) → text_of_word word.Ruok v ≡ codes "imok" }
    ensures isro { (v : FrontView) → text_of_word word.Isro v ≡ codes "rw" }
{}

/// A tick renews sessions, then time advances. Its reply says whether it deleted nodes.
pub fn ticks()
    ensures none { tick_calls [] ≡ Update Tick ∷ [] }
    ensures two { tick_calls (7 ∷ 9 ∷ [])
        ≡ Update (Ping 7) ∷ Update (Ping 9) ∷ Update Tick ∷ [] }
    ensures took { takes_nodes (reply.Ticked 5 0 2) ≡ true }
    ensures ended { takes_nodes (reply.Ticked 5 3 0) ≡ false }
    ensures other { takes_nodes (reply.Opened 9 5) ≡ false }
{}

/// A client asks for a session of 10,000 milliseconds, with a tick of 2,000.
pub fn sessions_are_opened()
    ensures call { opening 2000 greeting ≡ Update (Open 5) }
    ensures below_0 { opening 2000 (record greeting { timeout = negsuc 0 }) ≡ Update (Open 0) }
    ensures opened { (secret : List ℕ) (t : TablesView)
        → opened 2000 secret greeting 1 (reply.Opened 9 5 ∷ []) t
        ≡ welcomed 2000 greeting 9 5 (password_of secret 9) 1 t }
    ensures refused { (secret : List ℕ) (why : Refusal) (t : TablesView)
        → opened 2000 secret greeting 1 (reply.Refused why ∷ []) t ≡ closed 1 t }
{}

/// A client comes back to session 7. The tree must have it, and the client must give its password.
pub fn clients_come_back()
    ensures there { (v : FrontView) (s : Session) → get v.tree.sessions 7 ≡ Some s
        → returned greeting (pos 7) 1 v ≡ came_back v.clock.terms.tick greeting 7 s.timeout
        (password_of v.secret 7) 1 v.tables }
    ensures ended { (v : FrontView) → get v.tree.sessions 7 ≡ None
        → returned greeting (pos 7) 1 v ≡ turned_away greeting 1 v.tables }
    ensures below_0 { (v : FrontView)
        → returned greeting (negsuc 6) 1 v ≡ turned_away greeting 1 v.tables }
{}

/// Calls leave the tree that the plain service leaves. Their updates are recorded if that is asked
/// for.
pub fn calls_are_made()
    ensures none { (v : FrontView) → (asked [] v).tree ≡ v.tree }
    ensures two { (v : FrontView) (a b : Call)
        → (asked (a ∷ b ∷ []) v).tree ≡ (serve (serve v.tree 0 a).0 0 b).0 }
    ensures replies { (v : FrontView) (a b : Call) → replies_to (a ∷ b ∷ []) v
        ≡ (serve v.tree 0 a).1 ∷ (serve (serve v.tree 0 a).0 0 b).1 ∷ [] }
    ensures kept { left_of true (Update Tick ∷ Query (Exists []) ∷ Update (Ping 7) ∷ [])
        ≡ Tick ∷ Ping 7 ∷ [] }
    ensures let_go { left_of false (Update Tick ∷ []) ≡ [] }
{}

/// The calls that may end sessions: a close and a tick.
pub fn ends_of_sessions()
    ensures close { may_end (Update (Close 7)) ≡ true }
    ensures tick { may_end (Update Tick) ≡ true }
    ensures ping { may_end (Update (Ping 7)) ≡ false }
    ensures query { may_end (Query (Exists [])) ≡ false }
    ensures not_swept { (rs : List Reply) (ids : List ℕ) (paths : List Path) (v : FrontView)
        → tidied (Update (Ping 7) ∷ []) rs ids paths v ≡ v }
{}

/// What calls may end: a close its own session and the nodes of it, and a tick the sessions that
/// are due and the nodes that are stale.
pub fn what_calls_may_end()
    ensures close { (t : Tree) → ended_by t (Update (Close 7)) ≡ 7 ∷ [] }
    ensures tick { (t : Tree) → ended_by t (Update Tick) ≡ due_next t }
    ensures ping { (t : Tree) → ended_by t (Update (Ping 7)) ≡ [] }
    ensures stale { (t : Tree) → stale_by t (Update Tick) ≡ stale_next t }
    ensures not_stale { (t : Tree) → stale_by t (Update (Close 7)) ≡ [] }
    ensures of_a_close { (t : Tree) → doomed (Update (Close 7) ∷ []) t ≡ owned_by t 7 ++ [] }
    ensures of_a_query { (t : Tree) → doomed (Query (Exists []) ∷ []) t ≡ [] }
{}

/// The nodes that are looked at: those that may be gone, and their parents, each once.
pub fn who_is_looked_at()
    ensures parents { with_parents (at_a_b ∷ at_a ∷ []) ≡ at_a_b ∷ at_a ∷ at_a ∷ [] ∷ [] }
    ensures order { in_order (at_a_b ∷ at_a ∷ at_a_b ∷ []) ≡ at_a ∷ at_a_b ∷ [] }
{}

/// A length that no frame has, and the rest of the bytes of a connection.
#[tactic(auto, unfolding(zjute::specs::Frames::next_of))]
pub fn rests()
    ensures longest { is_too_long (next_of (0 ∷ 15 ∷ 255 ∷ 255 ∷ [])) ≡ false }
    ensures longer { is_too_long (next_of (0 ∷ 16 ∷ 0 ∷ 0 ∷ [])) ≡ true }
    ensures below_0 { is_too_long (next_of (255 ∷ 255 ∷ 255 ∷ 255 ∷ [])) ≡ true }
    ensures part { is_too_long (next_of (255 ∷ 255 ∷ [])) ≡ false }
    ensures not_open { (rest : List ℕ) (v : FrontView) → is_open v.tables 3 ≡ false
        → keeps rest 3 v ≡ v }
{}

/// The tables that a front begins with: sessions 7 and 9, without connections.
pub fn sessions_are_restored()
    ensures none { (limits : WatchLimits) → tables_of limits [] ≡ no_tables limits }
    ensures limits { (limits : WatchLimits) → (no_tables limits).limits ≡ limits }
    ensures two { (limits : WatchLimits) → tables_of limits (7 ∷ 9 ∷ []) ≡ record (no_tables limits) {
      attachments = insert (insert empty 7 restored_attachment) 9 restored_attachment;
    } }
    ensures new { (limits : WatchLimits) (secret : List ℕ) (times : Clock)
        → (beginning limits opening_tree secret times false).tree ≡ opening_tree }
    ensures taken { (v : FrontView) → (all_taken v).made ≡ [] }
{}
