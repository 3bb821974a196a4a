//! Worked examples of the definitions. Each function's contract is a table; its body does nothing.

ghost use Rattle.std.specs.Prelude.{◌≡◌, [], ◌∷◌, Some, None};
ghost use Rattle.std.specs.declared.cmp.Ordering.TheVariants.{Less};
ghost use Rattle.zslots.specs.Ids.{id_cmp, first_of, last_or, first_if};
ghost use Rattle.zslots.specs.Rows.{a, b, c, reuse};
ghost use Rattle.zslots.specs.Runs.{ids_of_run};

// The ends of lists of Ids.
fn ends()
    ensures first_of_none { first_of [] ≡ None }
    ensures first_of_two { first_of (a ∷ b ∷ []) ≡ Some a }
    ensures last_of_none { last_or (Some c) [] ≡ Some c }
    ensures last_of_two { last_or (Some c) (a ∷ b ∷ []) ≡ Some b }
    ensures first_stays { first_if (Some c) (Some a) (Some b) ≡ Some a }
    ensures first_goes { first_if None (Some a) (Some b) ≡ Some b }
{}

// Ids that share a slot, and the Ids that a run returned.
fn ids()
    ensures one_slot { id_cmp a c ≡ Less }
    ensures run { ids_of_run reuse ≡ a ∷ c ∷ [] }
{}
