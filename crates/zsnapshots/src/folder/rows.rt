//! Worked examples: each function's contract has some, and its body is empty.

ghost use Rattle.std.specs.Prelude.{◌≡◌, [], ◌∷◌, List, ℕ, None, Some, true, false};
ghost use Rattle.ztree.specs.Tree.{Tree};
ghost use Rattle.zcalls.specs.declared.call.Update.TheVariants.{Open, Tick};
ghost use Rattle.zwire.specs.declared.records.record.Record.TheVariants.{Fail, Password, Row, Update};
ghost use Rattle.zsnapshots.specs.folder.Entries.{entries_of, has_password, records_of, without_passwords};
ghost use Rattle.zsnapshots.specs.folder.Entries.{Entry};
ghost use Rattle.zsnapshots.specs.folder.States.{after, after_entry};

/// The records of an open and of a tick.
pub fn entries_are_records()
    ensures { records_of (Open 10 ∷ (Tick ∷ [])) ≡ Update (Open 10) ∷ (Update Tick ∷ []) }
{}

/// The entries of records, and records that aren't entries.
pub fn records_are_entries()
    ensures none { entries_of [] ≡ Some [] }
    ensures both { entries_of (Update (Open 10) ∷ Update Tick ∷ []) ≡ Some (Open 10 ∷ (Tick ∷ [])) }
    ensures password { (p : List ℕ) → entries_of (Password p ∷ Update (Open 10) ∷ [])
        ≡ Some (Open 10 ∷ []) }
    ensures password_alone { (p : List ℕ) → entries_of (Password p ∷ []) ≡ Some [] }
    ensures order { entries_of (Fail 1 ∷ []) ≡ None }
    ensures row { (r : List ℕ) → entries_of (Row r ∷ []) ≡ None }
    ensures behind { entries_of (Update Tick ∷ Fail 1 ∷ []) ≡ None }
{}

/// Passwords are left out wherever they are, and nothing else is.
pub fn passwords_say_nothing()
    ensures left_out { (p r : List ℕ)
        → without_passwords (Row r ∷ Password p ∷ Password p ∷ Update Tick ∷ Password p ∷ [])
        ≡ Row r ∷ Update Tick ∷ [] }
    ensures none { (r : List ℕ) → without_passwords (Row r ∷ Fail 1 ∷ []) ≡ Row r ∷ Fail 1 ∷ [] }
    ensures reported { (p : List ℕ) → has_password (Update Tick ∷ Password p ∷ []) ≡ true }
    ensures none_reported { has_password (Update Tick ∷ Fail 1 ∷ []) ≡ false }
{}

/// Entries are applied in order.
pub fn entries_are_applied_in_order()
    ensures none { (t : Tree) → after t [] ≡ t }
    ensures two { (t : Tree) (a b : Entry)
        → after t (a ∷ (b ∷ [])) ≡ after_entry (after_entry t a) b }
{}
