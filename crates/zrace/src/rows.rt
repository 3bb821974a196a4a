//! Worked examples of the definitions. Each clause is one; the bodies do nothing.

ghost use Rattle.std.specs.Prelude.{◌≡◌, [], ◌∷◌, ℕ, true, codes, List, Option, None, Some};
ghost use Rattle.ztree.specs.declared.node.Stat.{Stat};
ghost use Rattle.zprotocol.specs.declared.traces.trace.Traces.{Traces};
ghost use Rattle.zprotocol.specs.traces.Audit.{is_any_cut};
ghost use Rattle.zrace.specs.Asked.{IsRaceOf};
ghost use Rattle.zrace.specs.declared.plan.Race.{Race};
ghost use Rattle.zrace.specs.declared.plan.TheConstants.{MAX_RACERS, MAX_ROUNDS};
ghost use Rattle.zrace.specs.Records.{AreInRecords, IsRecorded};
ghost use Rattle.zrace.specs.support.Rows.{exists_call, exists_reply, HasSecond, text_numbers};

/// The limits, as numbers.
pub fn limits_are_numbers()
    ensures racers { MAX_RACERS ≡ 31 }
    ensures rounds { MAX_ROUNDS ≡ 1000 }
{}

/// Words of the program, and the four numbers that they give: servers, clients, rounds, and the
/// server to halt.
pub fn words_give_four_numbers()
    ensures none { text_numbers (codes "zk race") ≡ Some (3 ∷ 4 ∷ 100 ∷ 0 ∷ []) }
    ensures one { text_numbers (codes "zk race --halt 2") ≡ Some (3 ∷ 4 ∷ 100 ∷ 2 ∷ []) }
    ensures swapped { text_numbers (codes "zk race --halt 5 --rounds=7 --clients 31 --servers 16")
        ≡ Some (16 ∷ 31 ∷ 7 ∷ 5 ∷ []) }
{}

/// Numbers that no race has. A server outside the chain is not halted, nor is the only one.
pub fn numbers_are_in_their_ranges()
    ensures seventeen_servers { (r : Race) → IsRaceOf (Some (17 ∷ 4 ∷ 100 ∷ 0 ∷ [])) r → ⊥ }
    ensures no_client { (r : Race) → IsRaceOf (Some (3 ∷ 0 ∷ 100 ∷ 0 ∷ [])) r → ⊥ }
    ensures rounds { (r : Race) → IsRaceOf (Some (3 ∷ 4 ∷ 1001 ∷ 0 ∷ [])) r → ⊥ }
    ensures halted { (r : Race) → IsRaceOf (Some (2 ∷ 4 ∷ 100 ∷ 3 ∷ [])) r → ⊥ }
    ensures only_one { (r : Race) → IsRaceOf (Some (1 ∷ 4 ∷ 100 ∷ 1 ∷ [])) r → ⊥ }
{}

/// What a record shows: client 2 asks for `/n7` by its call 3, and the reply has the version. The
/// client, the call, the node and the version are those of the record, and a call alone shows
/// nothing.
pub fn records_show_versions()
    ensures reply { (stat : Stat) → stat.version ≡ 1
        → IsRecorded 2 7 1 (exists_call 2 3 (codes "n7") ∷ exists_reply 2 3 stat ∷ []) }
    ensures nothing { (client node version : ℕ) → IsRecorded client node version [] → ⊥ }
    ensures call_alone { IsRecorded 2 7 1 (exists_call 2 3 (codes "n7") ∷ []) → ⊥ }
    ensures other_version { (stat : Stat) → stat.version ≡ 2
        → IsRecorded 2 7 1 (exists_call 2 3 (codes "n7") ∷ exists_reply 2 3 stat ∷ []) → ⊥ }
    ensures other_node { (stat : Stat) →
        IsRecorded 2 7 1 (exists_call 2 3 (codes "n8") ∷ exists_reply 2 3 stat ∷ []) → ⊥ }
    ensures other_call { (stat : Stat) →
        IsRecorded 2 7 1 (exists_call 2 3 (codes "n7") ∷ exists_reply 2 4 stat ∷ []) → ⊥ }
    ensures other_client { (stat : Stat) →
        IsRecorded 1 7 1 (exists_call 2 3 (codes "n7") ∷ exists_reply 2 3 stat ∷ []) → ⊥ }
{}

/// The versions of nodes, against the records of a run. One that no record has is refused, unless
/// a trace is cut.
pub fn versions_are_in_records()
    ensures recorded { (t : Traces) (stat : Stat) → stat.version ≡ 1
        → HasSecond t (exists_call 1 3 (codes "n0") ∷ exists_reply 1 3 stat ∷ [])
        → AreInRecords t (Some 1 ∷ None ∷ []) }
    ensures other_version { (t : Traces) (stat : Stat) → stat.version ≡ 1
        → HasSecond t (exists_call 1 3 (codes "n0") ∷ exists_reply 1 3 stat ∷ [])
        → AreInRecords t (Some 2 ∷ None ∷ []) → ⊥ }
    ensures other_node { (t : Traces) (stat : Stat) → stat.version ≡ 1
        → HasSecond t (exists_call 1 3 (codes "n0") ∷ exists_reply 1 3 stat ∷ [])
        → AreInRecords t (Some 1 ∷ Some 1 ∷ []) → ⊥ }
    ensures cut { (t : Traces) (versions : List (Option ℕ)) → is_any_cut t ≡ true
        → AreInRecords t versions }
{}
