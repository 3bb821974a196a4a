//! Worked examples: each function's contract has some, and its body is empty.

ghost use Rattle.std.specs.Prelude.{◌≡◌, [], ◌∷◌, ◌++◌, List, ℕ, true, false};
ghost use Rattle.zcalls.specs.declared.call.Call.{Call};
ghost use Rattle.zcalls.specs.declared.call.Call.TheVariants as call;
ghost use Rattle.zcalls.specs.declared.call.Update.TheVariants.{Tick};
ghost use Rattle.zcalls.specs.declared.reply.Reply.{Reply};
ghost use Rattle.zsnapshots.specs.folder.Entries.{entries_text};
ghost use Rattle.zdurable.specs.Compaction.{continued_by, growth_after};
ghost use Rattle.zdurable.specs.DurableFront.{has_grown, more_if};
ghost use Rattle.ztree.specs.Tree.{opening_tree, opening_within};
ghost use Rattle.zrequests.specs.Terms.{profile};
ghost use Rattle.zdurable.specs.Incarnations.{IsWoven, PartsLead};
ghost use Rattle.zdurable.specs.Restored.{clock_at};
ghost use Rattle.zdurable.specs.support.Samples.{ended, idle, nodes_at_most};

/// With a tick of 500 ms, a service at tick 16 began eight seconds ago, whenever it was opened.
pub fn times_go_on()
    ensures now { clock_at (profile 500) 10000 16
        ≡ record { terms = profile 500; started = 2000; base = 0 } }
    ensures new { clock_at (profile 500) 10000 0
        ≡ record { terms = profile 500; started = 10000; base = 0 } }
    ensures early { clock_at (profile 500) 1000 16
        ≡ record { terms = profile 500; started = 0; base = 0 } }
{}

/// Without changes no block is written, and with changes one.
pub fn nothing_is_no_block()
    ensures nothing { (batches : List (List ℕ)) → more_if [] batches ≡ batches }
    ensures one { (batches : List (List ℕ)) → more_if (Tick ∷ (Tick ∷ [])) batches
        ≡ batches ++ entries_text (Tick ∷ (Tick ∷ [])) ∷ [] }
{}

/// When a new part is begun: with least growth, with much data, and with many nodes. And what is left
/// of the growth afterwards.
pub fn parts_are_begun()
    ensures least { has_grown 4096 1024 8 4096 ≡ true }
    ensures less { has_grown 4097 1024 8 4096 ≡ false }
    ensures data { has_grown 4096 1025 8 4096 ≡ false }
    ensures nodes { has_grown 4096 1024 9 4096 ≡ false }
    ensures begun { growth_after true 4096 ≡ 0 }
    ensures not_begun { growth_after false 4096 ≡ 2048 }
{}

/// The last byte of a file at rest is the first one of the part after it.
pub fn parts_are_joined()
    ensures { continued_by (1 ∷ 97 ∷ 0 ∷ 0 ∷ []) (1 ∷ 98 ∷ 0 ∷ 0 ∷ [])
        ≡ 1 ∷ 97 ∷ 0 ∷ 1 ∷ 98 ∷ 0 ∷ 0 ∷ [] }
{}

/// What may be in a log after some incarnations: an acknowledged call is there once. A change in
/// flight is there once or not at all.
pub fn what_was_reported_stands()
    ensures under_way { (r : Reply) → IsWoven (ended [] (Tick ∷ []) ∷ [])
        ((call.Update Tick, r) ∷ []) (Tick ∷ []) }
    ensures not_at_all { IsWoven (ended [] (Tick ∷ []) ∷ []) [] [] }
    ensures undone { (c : Call) (r : Reply) → IsWoven (ended ((c, r) ∷ []) [] ∷ []) [] [] → ⊥ }
    ensures twice { (c : Call) (r : Reply) → IsWoven (ended ((c, r) ∷ []) [] ∷ [])
        ((c, r) ∷ ((c, r) ∷ [])) [] → ⊥ }
{}

/// A start with other limits changes these alone, and a later one begins with them.
pub fn limits_change_between_parts()
    ensures one { PartsLead opening_tree (idle ∷ []) (opening_within nodes_at_most) }
    ensures more { PartsLead opening_tree (idle ∷ (idle ∷ [])) (opening_within nodes_at_most) }
    ensures none { PartsLead opening_tree (idle ∷ []) opening_tree → ⊥ }
{}
