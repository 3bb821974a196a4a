//! Worked examples: each function's contract has some, and its body is empty.

ghost use Rattle.std.specs.Prelude.{◌≡◌, [], ◌∷◌, ◌++◌, List, ℕ, codes};
ghost use Rattle.zjournal.specs.Blocks.{at_rest, IsEnd};
ghost use Rattle.zjournal.specs.Checksum.{adler_after, stamped, stamped_all, sum_after_all};
ghost use Rattle.zjournal.specs.Device.{Cut, IsEither, Torn};
ghost use Rattle.zjournal.specs.declared.fault.OpenError.TheVariants.{Damaged, Old, Other};
ghost use Rattle.zjournal.specs.Faults.{IsSuch};
ghost use Rattle.zjournal.specs.Journal.{head, head_of, holdings, IsUnmade, Keeps};
ghost use Rattle.zjournal.specs.Untouched.{IsTaking};

/// A checksum, one that continues from another, and a text after its own.
pub fn texts_have_checksums()
    ensures empty { adler_after 1 [] ≡ 1 }
    ensures known { adler_after 1 (codes "Wikipedia") ≡ 300286872 }
    ensures goes_on { adler_after (adler_after 1 (codes "Wiki")) (codes "pedia") ≡ 300286872 }
    ensures stamped { stamped 1 (codes "Wikipedia") ≡ codes "11e60398Wikipedia" }
{}

/// Two texts: the second checksum is that of both. One text after another sum, with the same sum
/// at its end.
pub fn checksums_run_on()
    ensures running { stamped_all 1 (codes "a" ∷ codes "b" ∷ [])
        ≡ codes "00620062a" ∷ codes "012600c4b" ∷ [] }
    ensures both { sum_after_all 1 (codes "a" ∷ codes "b" ∷ []) ≡ 19267780 }
    ensures other { sum_after_all 6422625 (codes "c" ∷ []) ≡ 19267780 }
{}

/// A file without its first block holds no batches, nor does one whose blocks were swapped.
pub fn missing_blocks_are_seen()
    ensures head { head 1 3 ≡ codes "jellqupas journal " ++ 3 ∷ 3 ∷ codes "tree00000001" }
    ensures both { Keeps 3 (codes "a" ∷ codes "b" ∷ [])
        (at_rest (head 1 3 ∷ codes "00620062a" ∷ codes "012600c4b" ∷ [])) }
    ensures first_missing { (batches : List (List ℕ))
        → Keeps 3 batches (at_rest (head 1 3 ∷ codes "012600c4b" ∷ [])) → ⊥ }
    ensures other_order { (batches : List (List ℕ)) → Keeps 3 batches
        (at_rest (head 1 3 ∷ codes "012600c4b" ∷ codes "00620062a" ∷ [])) → ⊥ }
{}

/// A file whose checksums continue from another sum holds a text, and after it one that followed two
/// others.
pub fn files_continue_from_a_sum()
    ensures head { head 6422625 3
        ≡ codes "jellqupas journal " ++ 3 ∷ 3 ∷ codes "tree00620061" }
    ensures before { Keeps 3 (codes "a" ∷ codes "b" ∷ codes "d" ∷ []) (at_rest
        (head 1 3 ∷ codes "00620062a" ∷ codes "012600c4b" ∷ codes "024e0128d" ∷ [])) }
    ensures after { Keeps 3 (codes "c" ∷ codes "d" ∷ []) (at_rest
        (head 6422625 3 ∷ codes "012600c4c" ∷ codes "024e0128d" ∷ [])) }
{}

/// A file of an older program, one of another program, one of this one, and one whose head has no
/// sum.
pub fn heads_are_compared()
    ensures older { IsSuch 3 (1 ∷ head_of 2 3 (codes "tree of zk 2" ++ 0 ∷ 0 ∷ [])) Old }
    ensures other { IsSuch 3 (1 ∷ head_of 3 3 (codes "wood00000001" ++ 0 ∷ 0 ∷ [])) Other }
    ensures ours { IsSuch 3 (1 ∷ head_of 3 3 (codes "tree00000001" ++ 0 ∷ 0 ∷ [])) Old → ⊥ }
    ensures no_sum { IsSuch 3 (1 ∷ head_of 3 3 (codes "treefff10000" ++ 0 ∷ 0 ∷ [])) (Damaged 0) }
{}

/// A file at rest: blocks, and a clear commit byte.
pub fn blocks_stand_in_a_row()
    ensures none { at_rest [] ≡ 0 ∷ [] }
    ensures two { at_rest ((97 ∷ []) ∷ (98 ∷ 99 ∷ []) ∷ [])
        ≡ 1 ∷ 97 ∷ 0 ∷ 1 ∷ 98 ∷ 99 ∷ 0 ∷ 0 ∷ [] }
{}

/// What doesn't count after the blocks, and a set commit byte with something after it.
pub fn ends_count_for_nothing()
    ensures nothing { IsEnd [] }
    ensures torn_commit_byte { IsEnd (1 ∷ []) }
    ensures clear_commit_byte { IsEnd (0 ∷ 97 ∷ 0 ∷ []) }
    ensures other_commit_byte { IsEnd (7 ∷ 97 ∷ []) }
    ensures set_commit_byte { IsEnd (1 ∷ 97 ∷ []) → ⊥ }
{}

/// A file while it is made, one that isn't, and one that was made.
pub fn files_are_made()
    ensures empty { IsUnmade 3 [] }
    ensures one_byte { IsUnmade 3 (74 ∷ []) }
    ensures clear_commit_byte { IsUnmade 3 (0 ∷ 1 ∷ 2 ∷ []) }
    ensures other { IsUnmade 3 (74 ∷ 101 ∷ []) → ⊥ }
    ensures made { Keeps 3 [] (at_rest (holdings 1 3 [])) }
{}

/// A torn write leaves what is before its range, and a cut leaves a prefix of the file.
pub fn crashes_leave_the_rest()
    ensures before { Torn 1 1 (1 ∷ 2 ∷ []) (9 ∷ 2 ∷ []) → ⊥ }
    ensures behind { Torn 0 1 (1 ∷ 2 ∷ []) (1 ∷ 9 ∷ []) → ⊥ }
    ensures shorter { Torn 0 1 (1 ∷ 2 ∷ []) (1 ∷ []) → ⊥ }
    ensures cut_too_far { Cut 1 (1 ∷ 2 ∷ []) [] → ⊥ }
    ensures cut_no_front { Cut 1 (1 ∷ 2 ∷ []) (9 ∷ []) → ⊥ }
{}

/// While a new file replaces an old one, a crash leaves one of them, whole.
pub fn new_files_take_the_place()
    ensures old { IsEither (λ c. c ≡ 1 ∷ []) (2 ∷ 3 ∷ []) (1 ∷ []) }
    ensures next { IsEither (λ c. c ≡ 1 ∷ []) (2 ∷ 3 ∷ []) (2 ∷ 3 ∷ []) }
    ensures part { IsEither (λ c. c ≡ 1 ∷ []) (2 ∷ 3 ∷ []) (2 ∷ []) → ⊥ }
    ensures nothing { IsEither (λ c. c ≡ 1 ∷ []) (2 ∷ 3 ∷ []) [] → ⊥ }
    ensures closed { IsTaking (1 ∷ []) (2 ∷ []) (2 ∷ 0 ∷ []) }
    ensures unclosed { IsTaking (1 ∷ []) (2 ∷ []) (2 ∷ []) → ⊥ }
{}
