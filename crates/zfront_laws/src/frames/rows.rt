//! Worked examples of the definitions, as clauses. The functions do nothing.

ghost use Rattle.std.specs.Prelude.{◌≡◌, ℕ, pos, true, false, List, [], ◌∷◌, ◌++◌, None, Some, Ok, Err};
ghost use Rattle.std.specs.FinMap.{get};
ghost use Rattle.ztree.specs.Tree.{Tree};
ghost use Rattle.zcalls.specs.declared.call.Call.{Call};
ghost use Rattle.zcalls.specs.declared.reply.Reply.TheVariants.{Opened};
ghost use Rattle.zjute.specs.declared.connecting.ConnectRequest.{ConnectRequest};
ghost use Rattle.zjute.specs.declared.code.Code.{Code};
ghost use Rattle.zjute.specs.declared.request.Asked.{Asked};
ghost use Rattle.zrequests.specs.Asking.{Meaning};
ghost use Rattle.zrequests.specs.Timeouts.{millis_reported};
ghost use Rattle.zrequests.specs.declared.fault.Unasked.TheVariants.{Refused};
ghost use Rattle.zwatches.specs.declared.changes.event.Event.{Event};
ghost use Rattle.zresponses.specs.declared.answer.Answer.{Answer};
ghost use Rattle.zresponses.specs.declared.clock.Clock.{Clock};
ghost use Rattle.zresponses.specs.declared.clock.Now.{Now};
ghost use Rattle.zresponses.specs.Own.{refused_answer};
ghost use Rattle.zresponses.specs.Stats.{long_of, told};
ghost use Rattle.ztree_service.specs.log.Logs.{Log, calls_of};
ghost use Rattle.zpasswords.specs.Passwords.{password_of};
ghost use Rattle.zconnections.specs.buffers.Outbox.{ChunkView};
ghost use Rattle.zconnections.specs.Tables.{chunk, last_chunk};
ghost use Rattle.zconnections.specs.Reporting.{event_frame};
ghost use Rattle.zresponses.specs.effects.Frames.{answer_frame, response_frame};
ghost use Rattle.zresponses.specs.effects.Greeting.{given};
ghost use Rattle.zfront.specs.Front.{FrontView};
ghost use Rattle.zfront.specs.Greeting.{opening};
ghost use Rattle.zfront.specs.Requests.{request_in};
ghost use Rattle.zfront_laws.specs.frames.Talk.{IsOpened, IsReturned};
ghost use Rattle.zfront_laws.specs.frames.Talk.{Answered, Answers, Closes, Greeted, IsAnswer, Says, SaysOr};
ghost use Rattle.zfront_laws.specs.frames.Talk.{Quiet, SaysText, Talk, Reports, is_closed, chunks_of};
ghost use Rattle.zfront_laws.specs.frames.Talk.{tree_behind};
ghost use Rattle.zfront_laws.specs.frames.Laws.{on};

/// An event and an answer are one chunk each, in order, and a close is the last chunk.
pub fn chunks_are_in_order()
    ensures all { (event : Event) (bytes : List ℕ)
        → chunks_of 3 (Reports event (Answers bytes Closes))
        ≡ chunk 3 (event_frame event) ∷ (chunk 3 bytes ∷ (last_chunk 3 ∷ [])) }
    ensures still { (bytes : List ℕ) → is_closed (Answers bytes Quiet) ≡ false }
    ensures closed { (bytes : List ℕ) → is_closed (Answers bytes Closes) ≡ true }
{}

/// The chunks of one connection are selected from those of all.
pub fn chunks_of_one_are_picked()
    ensures own { (bytes : List ℕ) → on 3 (chunk 3 bytes ∷ (chunk 5 bytes ∷ []))
        ≡ chunk 3 bytes ∷ [] }
{}

/// An answer is a frame under the xid of its own request. Its header has the zxid of the tree after
/// its calls, which are the last of the log.
pub fn answers_are_under_their_xid()
    ensures reads { (clock : Clock) (secret : List ℕ) (session : ℕ) (bytes reported : List ℕ)
        (tree : Tree) (log : Log) (answer : IsAnswer clock secret session bytes reported tree log)
        → request_in clock.base bytes ≡ Ok answer.asked }
    ensures xid { (clock : Clock) (secret : List ℕ) (session : ℕ) (bytes reported : List ℕ)
        (tree : Tree) (log : Log) (answer : IsAnswer clock secret session bytes reported tree log)
        → reported ≡ answer_frame (told clock.base tree.zxid) answer.asked.xid answer.answer }
    ensures stands { (clock : Clock) (secret : List ℕ) (session : ℕ) (bytes reported : List ℕ)
        (tree : Tree) (log : Log) (answer : IsAnswer clock secret session bytes reported tree log)
        → log ≡ answer.before ++ answer.part }
{}

/// A request that is refused at once gets its code, or what it reads of the service's own nodes, and
/// makes no call.
pub fn a_refusal_makes_no_call()
    ensures answer { (code : Code) (clock : Clock) (now : Now) (asked : Asked) (part : Log)
        (answer : Answer) → Says (Err (Refused code)) clock now asked part answer
        → answer ≡ refused_answer code asked }
    ensures calls { (code : Code) (clock : Clock) (now : Now) (asked : Asked) (part : Log)
        (answer : Answer) → Says (Err (Refused code)) clock now asked part answer → part ≡ [] }
{}

/// A walk gets the answer of the tree of that moment, and makes no call.
pub fn a_walk_makes_no_call()
    ensures answer { (walk answer : Answer) (meaning : Meaning (List Call)) (clock : Clock)
        (now : Now) (asked : Asked) (part : Log)
        → SaysOr (Some walk) meaning clock now asked part answer → answer ≡ walk }
    ensures calls { (walk answer : Answer) (meaning : Meaning (List Call)) (clock : Clock)
        (now : Now) (asked : Asked) (part : Log)
        → SaysOr (Some walk) meaning clock now asked part answer → part ≡ [] }
    ensures other { (answer : Answer) (clock : Clock) (now : Now) (asked : Asked) (part : Log)
        → SaysOr None (Ok []) clock now asked part answer → calls_of part ≡ [] }
{}

/// Only before a close may a frame have no answer, and each answer has its frame.
pub fn each_frame_has_one_answer()
    ensures event { (clock : Clock) (secret : List ℕ) (session : ℕ) (tree : Tree) (log : Log)
        (event : Event) → Answered clock secret session tree log [] (Reports event Quiet) }
    ensures unanswered { (clock : Clock) (secret : List ℕ) (session : ℕ) (tree : Tree) (log : Log)
        (bytes : List ℕ) → Answered clock secret session tree log (bytes ∷ []) Quiet → ⊥ }
    ensures closed { (clock : Clock) (secret : List ℕ) (session : ℕ) (tree : Tree) (log : Log)
        (bytes : List ℕ) → Answered clock secret session tree log (bytes ∷ []) Closes }
    ensures two_unanswered { (clock : Clock) (secret : List ℕ) (session : ℕ) (tree : Tree)
        (log : Log) (one two : List ℕ)
        → Answered clock secret session tree log (one ∷ (two ∷ [])) Closes → ⊥ }
    ensures unasked { (clock : Clock) (secret : List ℕ) (session : ℕ) (tree : Tree) (log : Log)
        (reported : List ℕ) → Answered clock secret session tree log [] (Answers reported Quiet) → ⊥ }
    ensures twice { (clock : Clock) (secret : List ℕ) (session : ℕ) (tree : Tree) (log : Log)
        (bytes reported again : List ℕ)
        → Answered clock secret session tree log (bytes ∷ []) (Answers reported (Answers again Quiet))
        → ⊥ }
{}

/// Nothing is sent before the connect response.
pub fn the_greeting_is_answered_first()
    ensures event { (clock : Clock) (secret : List ℕ) (session : ℕ) (tree : Tree) (log : Log)
        (frames : List (List ℕ)) (event : Event)
        → Greeted clock secret session tree log frames (Reports event Quiet) → ⊥ }
    ensures closed { (clock : Clock) (secret : List ℕ) (session : ℕ) (tree : Tree) (log : Log)
        (bytes : List ℕ) → Greeted clock secret session tree log (bytes ∷ []) Closes }
{}

/// A session in a connect response was opened by the last call of the log, and the response has its
/// password. Or it is one of the tree, whose client asked for it and gave its password.
pub fn a_session_is_reported_that_is_there()
    ensures opened { (clock : Clock) (secret : List ℕ) (session : ℕ) (greeting : ConnectRequest)
        (log : Log) (reported : List ℕ) (has : IsOpened clock secret session greeting log reported)
        → log ≡ has.0 ++ (opening clock.terms.tick greeting, Opened session has.1) ∷ [] }
    ensures asks { (clock : Clock) (secret : List ℕ) (session : ℕ) (greeting : ConnectRequest)
        (log : Log) (reported : List ℕ) → IsOpened clock secret session greeting log reported
        → greeting.session_id ≡ pos 0 }
    ensures password { (clock : Clock) (secret : List ℕ) (session : ℕ) (greeting : ConnectRequest)
        (log : Log) (reported : List ℕ) (has : IsOpened clock secret session greeting log reported)
        → reported ≡ response_frame greeting (millis_reported clock.terms.tick has.1) (long_of session)
        (password_of secret session) }
    ensures returned { (clock : Clock) (secret : List ℕ) (session : ℕ) (greeting : ConnectRequest)
        (tree : Tree) (reported : List ℕ) (has : IsReturned clock secret session greeting tree reported)
        → get tree.sessions session ≡ Some has.0 }
    ensures named { (clock : Clock) (secret : List ℕ) (session : ℕ) (greeting : ConnectRequest)
        (tree : Tree) (reported : List ℕ) → IsReturned clock secret session greeting tree reported
        → greeting.session_id ≡ pos session }
    ensures given { (clock : Clock) (secret : List ℕ) (session : ℕ) (greeting : ConnectRequest)
        (tree : Tree) (reported : List ℕ) → IsReturned clock secret session greeting tree reported
        → given greeting ≡ password_of secret session }
{}

/// The text of a word is that of a front with this clock, this secret, and the tree after a prefix
/// of the log, which begins with the given tree. No frame is answered.
pub fn a_text_is_that_of_a_tree_of_the_log()
    ensures frames { (clock : Clock) (secret : List ℕ) (start : Tree) (text : FrontView → List ℕ)
        (log : Log) (frames : List (List ℕ)) (talk : Talk)
        → SaysText clock secret start text log frames talk → frames ≡ [] }
    ensures talk { (clock : Clock) (secret : List ℕ) (start : Tree) (text : FrontView → List ℕ)
        (log : Log) (frames : List (List ℕ)) (talk : Talk)
        (has : SaysText clock secret start text log frames talk)
        → talk ≡ Answers (text has.1.0) Closes }
    ensures front { (clock : Clock) (secret : List ℕ) (start : Tree) (text : FrontView → List ℕ)
        (log : Log) (frames : List (List ℕ)) (talk : Talk)
        (has : SaysText clock secret start text log frames talk)
        → log ≡ has.1.1 ++ has.1.2 }
    ensures tree { (clock : Clock) (secret : List ℕ) (start : Tree) (text : FrontView → List ℕ)
        (log : Log) (frames : List (List ℕ)) (talk : Talk)
        (has : SaysText clock secret start text log frames talk)
        → has.1.0.tree ≡ tree_behind start has.1.1 }
{}
