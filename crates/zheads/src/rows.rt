//! Worked runs of heads, and logs that explain what callers saw, or don't. Each function's contract
//! has some, and its body does nothing.

ghost use Rattle.std.specs.Prelude.{◌≡◌, List, [], ◌∷◌, ◌++◌, take};
ghost use Rattle.zcalls.specs.declared.call.Update.{Update};
ghost use Rattle.zprotocol.specs.world.support.Counter.{create_update};
ghost use Rattle.zheads.specs.Heads.{Begun, Acknowledged};
ghost use Rattle.zheads.specs.support.HeadRows.{callers_saw, creates, asks, fails, uncut};
ghost use Rattle.zheads.specs.support.HeadRows.{made, saw};
ghost use Rattle.zheads.specs.support.HeadRows.{update_of_head, query_and_update, two_heads};
ghost use Rattle.zheads.specs.support.HeadRows.{successor_has_it, successor_lacks_it};
ghost use Rattle.zheads.specs.support.HeadRows.{head_is_cut_off, Explains, misnamed, emptied};
ghost use Rattle.zheads.specs.support.HeadRows.{two_creates};
ghost use Rattle.zheads.specs.support.HeadRows.{done, one_after_the_other};

/// An update is acknowledged once its entry has gone through the whole chain, and not before. A
/// chain of one server acknowledges it at once.
pub fn updates_go_through_the_chain()
    ensures waits { callers_saw 3 (take 4 update_of_head) ≡ Begun (made 1 0) ∷ [] }
    ensures acknowledged { callers_saw 3 update_of_head ≡ done (made 1 0) }
    ensures alone { callers_saw 1 (uncut (creates 1 ∷ [])) ≡ done (made 1 0) }
{}

/// A query is executed at once, and is acknowledged with the next entry.
pub fn queries_wait_for_an_entry()
    ensures waits { callers_saw 1 (uncut (asks 1 ∷ [])) ≡ Begun (saw 1 0) ∷ [] }
    ensures with_entry { callers_saw 3 query_and_update
        ≡ Begun (saw 1 0) ∷ Begun (made 1 0) ∷ Acknowledged (saw 1 0)
        ∷ Acknowledged (made 1 0) ∷ [] }
{}

/// A server that isn't the head takes no call, and neither does a head that failed.
pub fn only_live_heads_take_calls()
    ensures middle { callers_saw 3 (uncut (creates 2 ∷ asks 3 ∷ [])) ≡ [] }
    ensures spare { callers_saw 3 (uncut (creates 4 ∷ asks 4 ∷ [])) ≡ [] }
    ensures failed { callers_saw 3 (uncut (fails 1 ∷ creates 1 ∷ asks 1 ∷ [])) ≡ [] }
{}

/// Two heads, one after the other. The second continues after what the first acknowledged.
pub fn heads_follow_each_other()
    ensures { callers_saw 3 two_heads ≡ one_after_the_other (made 1 0) (made 2 1) }
{}

/// A head fails with an entry that isn't acknowledged. If its successor has the entry, the next one
/// comes after it. If not, the next one takes its place.
pub fn entries_of_a_lost_head()
    ensures had { callers_saw 3 successor_has_it ≡ Begun (made 1 0) ∷ done (made 2 1) }
    ensures lacked { callers_saw 3 successor_lacks_it ≡ Begun (made 1 0) ∷ done (made 2 0) }
{}

/// A head that is cut off executes calls, and acknowledges none: here a query that saw an entry
/// which is lost.
pub fn cut_off_head_is_silent()
    ensures { callers_saw 3 head_is_cut_off
        ≡ Begun (made 1 0) ∷ Begun (saw 1 1) ∷ Begun (made 1 1)
        ∷ Begun (saw 2 0) ∷ Begun (made 2 0) ∷ Acknowledged (saw 2 0)
        ∷ Acknowledged (made 2 0) ∷ [] }
{}

/// One log explains what callers saw of two heads.
pub fn one_log_explains_two_heads()
    ensures { Explains (callers_saw 3 two_heads) two_creates }
{}

/// What no log explains: an entry that is missing, a reply of another place, an entry that no one
/// made, and two entries at one place. Nor does one explain a call that began after a later one was
/// acknowledged.
pub fn logs_that_explain_nothing()
    ensures missing { Explains (done (made 1 0)) [] → ⊥ }
    ensures reply { Explains (done misnamed) (create_update ∷ []) → ⊥ }
    ensures invented { Explains [] (create_update ∷ []) → ⊥ }
    ensures two_logs { (log : List Update)
        → Explains (Begun (made 1 0) ∷ Begun (emptied 2 0) ∷ Acknowledged (made 1 0)
        ∷ Acknowledged (emptied 2 0) ∷ []) log → ⊥ }
    ensures stale_query { (log : List Update)
        → Explains (one_after_the_other (made 1 0) (saw 2 0)) log → ⊥ }
    ensures stale_update { (log : List Update)
        → Explains (one_after_the_other (saw 1 1) (made 2 0)) log → ⊥ }
{}
