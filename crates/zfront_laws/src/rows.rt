//! Worked examples of the definitions. The functions do nothing.

ghost use Rattle.std.specs.Prelude.{◌≡◌, ℕ, pos, true, false, List, [], ◌∷◌, ◌++◌, None, Some};
ghost use Rattle.std.specs.Prelude.{Ok, Err};
ghost use Rattle.zcodec.specs.declared.fault.Fault.{Fault};
ghost use Rattle.zcalls.specs.declared.call.Call.{Call};
ghost use Rattle.zcalls.specs.declared.call.Call.TheVariants.{Query, Update};
ghost use Rattle.zcalls.specs.declared.call.Query.{Query as Asked};
ghost use Rattle.zcalls.specs.declared.call.Update.{Update as Act};
ghost use Rattle.zcalls.specs.declared.call.Update.TheVariants as act;
ghost use Rattle.zcalls.specs.declared.reply.Reply.{Reply};
ghost use Rattle.zjute.specs.declared.connecting.ConnectRequest.{ConnectRequest};
ghost use Rattle.zpasswords.specs.Passwords.{password_of};
ghost use Rattle.zconnections.specs.declared.buffers.phase.Phase.TheVariants.{Closing, Speaking};
ghost use Rattle.zconnections.specs.buffers.Inputs.InputView.{Opened, Came, Ended, Tick};
ghost use Rattle.zconnections.specs.buffers.Streams.{phase_of};
ghost use Rattle.zprotocol.specs.world.PlainTree.{serve};
ghost use Rattle.zresponses.specs.Stats.{told};
ghost use Rattle.zresponses.specs.effects.Greeting.{given, is_ahead};
ghost use Rattle.zconnections.specs.Tables.{TablesView, connection_of};
ghost use Rattle.zfront.specs.Front.{FrontView};
ghost use Rattle.zfront.specs.Greeting.{opening};
ghost use Rattle.zfront.specs.Restoring.{all_taken};
ghost use Rattle.zfront.specs.Ticking.{ping, tick_calls};
ghost use Rattle.zfront_laws.specs.Given.{Gains, IsNoOpening, since_opened};
ghost use Rattle.zfront_laws.specs.Logs.{done_by, frame_calls, greeting_calls};
ghost use Rattle.zfront_laws.specs.Logs.{request_calls, run_log, step_log};
ghost use Rattle.zfront_laws.specs.Making.{KeepsMade, took_at, took_in, updates_in};
ghost use Rattle.zfront_laws.specs.Runs.{Step, Takes, Sent, Took, Does, Runs};
ghost use Rattle.zfront_laws.specs.Seats.{IsSeated};

/// Steps are done in order, and none is skipped.
pub fn runs()
    ensures none { (v : FrontView) → Runs [] v v }
    ensures only { (v w : FrontView) → Runs [] v w → w ≡ v }
    ensures first { (step : Step) (steps : List Step) (u w : FrontView)
        → Runs (step ∷ steps) u w → (v : FrontView) × Does step u v × Runs steps v w }
{}

/// The log has the calls in order. Each has the reply of the tree after the calls before it.
pub fn calls_are_logged()
    ensures none { (v : FrontView) → done_by [] v ≡ [] }
    ensures one { (call : Call) (v : FrontView)
        → done_by (call ∷ []) v ≡ (call, (serve v.tree 0 call).1) ∷ [] }
    ensures two { (one two : Call) (v : FrontView) → done_by (one ∷ two ∷ []) v
        ≡ (one, (serve v.tree 0 one).1) ∷ (two, (serve (serve v.tree 0 one).0 0 two).1) ∷ [] }
{}

/// The calls of frames. Of connect requests, only one for a new session makes a call.
pub fn frames_call()
    ensures no_greeting { (fault : Fault) (v : FrontView) → greeting_calls (Err fault) v ≡ [] }
    ensures opens { (greeting : ConnectRequest) (v : FrontView) → greeting.session_id ≡ pos 0
        → is_ahead (told v.clock.base v.tree.zxid) greeting ≡ false
        → greeting_calls (Ok greeting) v ≡ opening v.clock.terms.tick greeting ∷ [] }
    ensures names { (greeting : ConnectRequest) (v : FrontView) → greeting.session_id ≡ pos 7
        → greeting_calls (Ok greeting) v ≡ [] }
    ensures ahead { (greeting : ConnectRequest) (v : FrontView)
        → is_ahead (told v.clock.base v.tree.zxid) greeting ≡ true → greeting_calls (Ok greeting) v ≡ [] }
    ensures no_request { (fault : Fault) (session : ℕ) (v : FrontView)
        → request_calls (Err fault) session v ≡ [] }
    ensures closing { (bytes : List ℕ) (v : FrontView) → frame_calls (Some Closing) bytes v ≡ [] }
{}

/// The logs of steps. A tick renews the sessions that sent a request, then time advances.
pub fn steps_are_logged()
    ensures ticks { tick_calls (3 ∷ 5 ∷ []) ≡ ping 3 ∷ ping 5 ∷ Update act.Tick ∷ [] }
    ensures opened { (u v : FrontView) (does : Does (Takes (Opened 1)) u v)
        → step_log (Takes (Opened 1)) u v does ≡ [] }
    ensures sent { (u v : FrontView) (does : Does Sent u v) → step_log Sent u v does ≡ [] }
    ensures run { (one two : Step) (u w : FrontView) (runs : Runs (one ∷ two ∷ []) u w)
        → run_log (one ∷ two ∷ []) u w runs
        ≡ step_log one u runs.0 runs.1 ++ (step_log two runs.0 runs.2.0 runs.2.1 ++ []) }
{}

/// The connection that has a session is the one attached to it.
pub fn seats()
    ensures { (t : TablesView) → IsSeated t → phase_of t.streams 3 ≡ Some (Speaking 7)
        → connection_of t.attachments 7 ≡ Some 3 }
{}

/// The bytes that arrived on connection 1 since it was opened.
pub fn bytes_since()
    ensures opened { since_opened 1 (Takes (Opened 1) ∷ []) None ≡ Some [] }
    ensures chunks { since_opened 1 (Takes (Opened 1) ∷ Takes (Came 1 (7 ∷ [])) ∷
        Takes (Came 2 (8 ∷ [])) ∷ Takes Tick ∷ Sent ∷ Takes (Came 1 (9 ∷ [])) ∷ []) None
        ≡ Some (7 ∷ 9 ∷ []) }
    ensures again { since_opened 1 (Takes (Opened 1) ∷ Takes (Came 1 (7 ∷ [])) ∷
        Takes (Opened 1) ∷ []) None ≡ Some [] }
    ensures ended { since_opened 1 (Takes (Opened 1) ∷ Takes (Ended 1) ∷ []) None ≡ None }
    ensures another { since_opened 1 (Takes (Opened 1) ∷ Takes (Ended 2) ∷ []) None ≡ Some [] }
    ensures never { since_opened 1 (Takes (Came 1 (7 ∷ [])) ∷ []) None ≡ None }
{}

/// The steps that open connection 1.
pub fn openings()
    ensures other { IsNoOpening 1 (Takes (Opened 2)) }
    ensures bytes { IsNoOpening 1 (Takes (Came 1 [])) }
    ensures itself { IsNoOpening 1 (Takes (Opened 1)) → true ≡ false }
{}

/// A connect request that names session 7 gives the whole password that the secret derives for it.
pub fn names_gain()
    ensures names { (greeting : ConnectRequest) (v : FrontView) → greeting.session_id ≡ pos 7
        → Gains 7 greeting v → given greeting ≡ password_of v.secret 7 }
    ensures other { (greeting : ConnectRequest) (v : FrontView) → greeting.session_id ≡ pos 8
        → Gains 7 greeting v → true ≡ false }
{}

/// The updates of a log. A query isn't one.
pub fn updates()
    ensures { (update : Act) (asked : Asked) (one two : Reply)
        → updates_in ((Update update, one) ∷ (Query asked, two) ∷ []) ≡ update ∷ [] }
{}

/// Updates are taken all at once, and at no other step.
pub fn updates_are_taken()
    ensures all { (u v : FrontView) → Does Took u v → v ≡ all_taken u }
    ensures took { (v : FrontView) → took_at Took v ≡ v.made }
    ensures tick { (v : FrontView) → took_at (Takes Tick) v ≡ [] }
    ensures run { (u v : FrontView) (runs : Runs (Took ∷ []) u v)
        → took_in (Took ∷ []) u v runs ≡ u.made ++ [] }
    ensures keeps { (v : FrontView) → KeepsMade v → v.is_kept ≡ true }
{}
