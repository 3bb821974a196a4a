//! Worked examples of the definitions. The functions do nothing.

ghost use Rattle.std.specs.FinMap.{get};
ghost use Rattle.std.specs.Prelude.{◌≡◌, ℕ, List, [], ◌∷◌, ◌++◌, None, Some, refl, true};
ghost use Rattle.zcalls.specs.declared.call.Call.TheVariants.{Query, Update};
ghost use Rattle.zcalls.specs.declared.call.Query.{Query as Asked};
ghost use Rattle.zcalls.specs.declared.call.Update.TheVariants.{Close, Open, Tick as Passes};
ghost use Rattle.zconnections.specs.Tables.{chunk, last_chunk};
ghost use Rattle.zconnections.specs.buffers.Inputs.InputView.{Came, Ended, Opened, Tick};
ghost use Rattle.zfront_laws.specs.Given.{since_opened};
ghost use Rattle.zfront_laws.specs.Runs.{Sent, Takes, Took};
ghost use Rattle.zguard.specs.Guarding.{GuardView, answered, guard_of, no_frame, refuses};
ghost use Rattle.zguard.specs.Laws.{IsLogin};
ghost use Rattle.zguard.specs.declared.visitor.Standing.TheVariants.{Admitted, Refused, Stranger};
ghost use Rattle.zguard.specs.support.Samples.{greeting_frame, ping_frame};
ghost use Rattle.zjute.specs.Frames.{Whole, next_of};
ghost use Rattle.zguard_laws.specs.Inputs.{after_chunk, passed, with_answer};
ghost use Rattle.zguard_laws.specs.Laws.{HasGiven, IsOpening};
ghost use Rattle.zguard_laws.specs.Runs.{GuardedView, after_step, passed_steps};

/// What passes of inputs.
pub fn inputs_pass()
    ensures opened { (g : GuardView) → passed g (Opened 7) ≡ Opened 7 }
    ensures tick { (g : GuardView) → passed g Tick ≡ Tick }
    ensures unknown { (logins : List (List ℕ)) (bytes : List ℕ)
        → passed (guard_of logins) (Came 7 bytes) ≡ Came 7 [] }
    ensures admitted { (g : GuardView) (bytes : List ℕ)
        → get g.visitors 7 ≡ Some (record { standing = Admitted; bytes = [] })
        → passed g (Came 7 bytes) ≡ Came 7 bytes }
    ensures refused { (g : GuardView) (bytes : List ℕ)
        → get g.visitors 7 ≡ Some (record { standing = Refused; bytes = [] })
        → passed g (Came 7 bytes) ≡ Came 7 [] }
    ensures stranger { (g : GuardView)
        → get g.visitors 7 ≡ Some (record { standing = Stranger; bytes = [] })
        → get g.visitors 8 ≡ Some (record { standing = Admitted; bytes = [] })
        → passed g (Came 7 ping_frame) ≡ Came 7 no_frame }
{}

/// What is sent before a close.
pub fn closes_have_answers()
    ensures others { (g : GuardView) (bytes : List ℕ)
        → with_answer g (chunk 7 bytes) ≡ chunk 7 bytes }
    ensures unknown { (logins : List (List ℕ))
        → with_answer (guard_of logins) (last_chunk 7) ≡ last_chunk 7 }
    ensures kept { (g : GuardView) (bytes : List ℕ) → after_chunk g (chunk 7 bytes) ≡ g }
    ensures taken { (g : GuardView) → refuses g 7 ≡ true
        → after_chunk g (last_chunk 7) ≡ answered 7 g }
{}

/// The steps of a guard, and those of the front behind it.
pub fn steps_pass()
    ensures taken { (old : GuardedView) → after_step Took old ≡ old.guard }
    ensures tick { (old : GuardedView) → after_step (Takes Tick) old ≡ old.guard }
    ensures none { (old : GuardedView) → passed_steps [] old old refl ≡ [] }
{}

/// Who has given a login: by the second frame since it was opened, on its own connection.
pub fn who_has_given()
    ensures nothing { (logins : List (List ℕ)) → HasGiven logins None → ⊥ }
    ensures greeting { (logins : List (List ℕ)) → HasGiven logins (Some greeting_frame) → ⊥ }
    ensures request { (logins : List (List ℕ))
        → HasGiven logins (Some (greeting_frame ++ ping_frame)) → ⊥ }
    ensures login { (logins : List (List ℕ)) (more login rest : List ℕ)
        → next_of more ≡ Whole login rest → IsLogin logins login
        → HasGiven logins (Some (greeting_frame ++ more)) }
    ensures other { (logins : List (List ℕ)) (bytes : List ℕ)
        → HasGiven logins (since_opened 7
        (Takes (Opened 7) ∷ Takes (Opened 8) ∷ Takes (Came 8 bytes) ∷ []) None) → ⊥ }
    ensures earlier { (logins : List (List ℕ)) (bytes : List ℕ)
        → HasGiven logins (since_opened 7
        (Takes (Opened 7) ∷ Takes (Came 7 bytes) ∷ Takes (Ended 7) ∷ Sent ∷ []) None) → ⊥ }
{}

/// Calls that open a session.
pub fn calls_that_open()
    ensures open { (ticks : ℕ) → IsOpening (Update (Open ticks)) }
    ensures close { (session : ℕ) → IsOpening (Update (Close session)) → ⊥ }
    ensures tick { IsOpening (Update Passes) → ⊥ }
    ensures query { (query : Asked) → IsOpening (Query query) → ⊥ }
{}
