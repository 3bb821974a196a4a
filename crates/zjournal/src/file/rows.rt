//! Worked examples: each function's contract has some, and its body is empty.

ghost use Rattle.std.specs.Prelude.{◌≡◌, [], ◌∷◌, List, ℕ, true, false};
ghost use Rattle.zjournal.specs.file.Events.{held, written, shortened, synced, refused, replay, MayLeave};
ghost use Rattle.zjournal.specs.declared.file.mode.SyncMode.TheVariants.{Batch, Never};
ghost use Rattle.zjournal.specs.file.Events.{added, begun, folder_synced, named, settled, skips};
ghost use Rattle.zjournal.specs.file.Events.{part_begun, part_kept, part_named, part_settled};

/// What a read returns after some calls, the newest first. A failed call changes nothing of it.
pub fn calls_change_a_file()
    ensures opened { (replay (held (1 ∷ 2 ∷ []) ∷ [])).seen ≡ 1 ∷ 2 ∷ [] }
    ensures over { (replay (written 1 true (8 ∷ 9 ∷ []) ∷ held (1 ∷ 2 ∷ []) ∷ [])).seen
        ≡ 1 ∷ 8 ∷ 9 ∷ [] }
    ensures not_over { (replay (written 1 false (9 ∷ []) ∷ held (1 ∷ 2 ∷ []) ∷ [])).seen
        ≡ 1 ∷ 2 ∷ [] }
    ensures cut { (replay (shortened 1 true ∷ held (1 ∷ 2 ∷ []) ∷ [])).seen ≡ 1 ∷ [] }
    ensures synced { (replay (synced Batch true ∷ held (1 ∷ 2 ∷ []) ∷ [])).seen ≡ 1 ∷ 2 ∷ [] }
    ensures faults { (replay (refused ∷ synced Batch false ∷ held [] ∷ [])).faults ≡ 2 }
{}

/// What a crash leaves. After a sync it is what is read; before it, anything in the range of a
/// write, or what was there. After a failed call no sync makes anything durable.
pub fn crashes_leave_what_was_synced()
    ensures opened { (c : List ℕ) → MayLeave (held (1 ∷ []) ∷ []) c → c ≡ 1 ∷ [] }
    ensures synced { (c : List ℕ)
        → MayLeave (synced Batch true ∷ written 0 true (9 ∷ []) ∷ held (1 ∷ []) ∷ []) c
        → c ≡ 9 ∷ [] }
    ensures torn { MayLeave (written 0 true (9 ∷ []) ∷ held (1 ∷ []) ∷ []) (7 ∷ []) }
    ensures before { MayLeave (written 0 true (9 ∷ []) ∷ held (1 ∷ []) ∷ []) (1 ∷ []) }
    ensures outside { MayLeave (written 1 true (9 ∷ []) ∷ held (1 ∷ []) ∷ []) (2 ∷ []) → ⊥ }
    ensures failed { MayLeave (synced Batch false ∷ written 0 true (9 ∷ []) ∷ held (1 ∷ []) ∷ [])
        (1 ∷ []) }
    ensures too_late { MayLeave (synced Batch true ∷ written 0 false (9 ∷ []) ∷ held (1 ∷ []) ∷ [])
        (1 ∷ []) }
{}

/// A new file changes nothing before it takes the name. From then on a read returns its content.
pub fn new_files_take_the_name()
    ensures beside { (replay (added true (8 ∷ []) ∷ begun true ∷ held (1 ∷ []) ∷ [])).beside
        ≡ 8 ∷ [] }
    ensures before { (replay (added true (8 ∷ []) ∷ begun true ∷ held (1 ∷ []) ∷ [])).seen
        ≡ 1 ∷ [] }
    ensures left { (c : List ℕ) → MayLeave (settled Batch true ∷ added true (8 ∷ []) ∷ begun true
        ∷ held (1 ∷ []) ∷ []) c → c ≡ 1 ∷ [] }
    ensures behind { (replay (named true ∷ settled Batch true ∷ added true (8 ∷ []) ∷ begun true
        ∷ held (1 ∷ []) ∷ [])).seen ≡ 8 ∷ [] }
    ensures not_behind { (replay (named false ∷ settled Batch true ∷ added true (8 ∷ []) ∷ begun true
        ∷ held (1 ∷ []) ∷ [])).seen ≡ 1 ∷ [] }
{}

/// Until the folder is synced a crash leaves either file; then the new one. If the new file wasn't
/// synced before it took the name, a crash leaves anything. A sync of the file doesn't make its
/// name durable.
pub fn names_are_kept_by_the_folder()
    ensures either_old { MayLeave (named true ∷ settled Batch true ∷ added true (8 ∷ []) ∷ begun true
        ∷ held (1 ∷ []) ∷ []) (1 ∷ []) }
    ensures either_new { MayLeave (named true ∷ settled Batch true ∷ added true (8 ∷ []) ∷ begun true
        ∷ held (1 ∷ []) ∷ []) (8 ∷ []) }
    ensures no_part { MayLeave (named true ∷ settled Batch true ∷ added true (8 ∷ []) ∷ begun true
        ∷ held (1 ∷ []) ∷ []) [] → ⊥ }
    ensures kept { (c : List ℕ) → MayLeave (folder_synced Batch true ∷ named true
        ∷ settled Batch true ∷ added true (8 ∷ []) ∷ begun true ∷ held (1 ∷ []) ∷ []) c
        → c ≡ 8 ∷ [] }
    ensures unsettled { MayLeave (folder_synced Batch true ∷ named true ∷ added true (8 ∷ [])
        ∷ begun true ∷ held (1 ∷ []) ∷ []) (7 ∷ 7 ∷ []) }
    ensures of_the_file { MayLeave (synced Batch true ∷ named true ∷ settled Batch true
        ∷ added true (8 ∷ []) ∷ begun true ∷ held (1 ∷ []) ∷ []) (1 ∷ []) }
{}

/// A sync that asked nothing of the disk is noted as skipped, and stays in the record. What a read
/// returns is the same.
pub fn skipped_syncs_are_noted()
    ensures asked { skips (synced Batch true ∷ held [] ∷ []) ≡ false }
    ensures file { skips (synced Never true ∷ held [] ∷ []) ≡ true }
    ensures new_file { skips (settled Never true ∷ begun true ∷ held [] ∷ []) ≡ true }
    ensures folder { skips (folder_synced Never true ∷ named true ∷ settled Batch true
        ∷ begun true ∷ held [] ∷ []) ≡ true }
    ensures earlier { skips (written 0 true (9 ∷ []) ∷ synced Never true ∷ held [] ∷ []) ≡ true }
    ensures changes { skips (written 0 true (9 ∷ []) ∷ held [] ∷ []) ≡ false }
    ensures seen { (replay (synced Never true ∷ held (1 ∷ []) ∷ [])).seen ≡ 1 ∷ [] }
{}

/// A new file that isn't begun or written is ended, and its fault is counted. The file takes calls as
/// before, and another new file may replace it. A file in part leaves anything if it takes the name.
pub fn failed_new_files_are_ended()
    ensures counted { (replay (added false (8 ∷ []) ∷ begun false ∷ held (1 ∷ []) ∷ [])).faults
        ≡ 2 }
    ensures usable { (replay (added false (8 ∷ []) ∷ begun true ∷ held (1 ∷ []) ∷ [])).has_failed
        ≡ false }
    ensures seen { (replay (added false (8 ∷ []) ∷ begun true ∷ held (1 ∷ []) ∷ [])).seen
        ≡ 1 ∷ [] }
    ensures synced { (c : List ℕ) → MayLeave (synced Batch true ∷ written 0 true (9 ∷ [])
        ∷ added false (8 ∷ []) ∷ begun true ∷ held (1 ∷ []) ∷ []) c → c ≡ 9 ∷ [] }
    ensures again { (c : List ℕ) → MayLeave (folder_synced Batch true ∷ named true
        ∷ settled Batch true ∷ added true (7 ∷ []) ∷ begun true ∷ added false (8 ∷ []) ∷ begun true
        ∷ held (1 ∷ []) ∷ []) c → c ≡ 7 ∷ [] }
    ensures in_part { MayLeave (folder_synced Batch true ∷ named true ∷ settled Batch true
        ∷ added false (8 ∷ []) ∷ begun true ∷ held (1 ∷ []) ∷ []) (7 ∷ 7 ∷ []) }
{}

/// A split changes nothing. Once the new part's name is durable, a sync of the file makes durable
/// what is written. A part ends the new file, and one that isn't begun leaves all else as it was.
pub fn parts_change_nothing()
    ensures seen { (replay (part_named true ∷ part_settled Batch true ∷ part_begun true
        ∷ held (1 ∷ 0 ∷ []) ∷ [])).seen ≡ 1 ∷ 0 ∷ [] }
    ensures left { (c : List ℕ) → MayLeave (part_named true ∷ part_settled Batch true
        ∷ part_begun true ∷ held (1 ∷ 0 ∷ []) ∷ []) c → c ≡ 1 ∷ 0 ∷ [] }
    ensures written { (c : List ℕ) → MayLeave (synced Batch true ∷ written 1 true (9 ∷ [])
        ∷ part_kept Batch true ∷ part_named true ∷ part_settled Batch true ∷ part_begun true
        ∷ held (1 ∷ 0 ∷ []) ∷ []) c → c ≡ 1 ∷ 9 ∷ [] }
    ensures counted { (replay (part_begun false ∷ begun true ∷ held (1 ∷ []) ∷ [])).faults ≡ 1 }
    ensures usable { (replay (part_begun false ∷ begun true ∷ held (1 ∷ []) ∷ [])).has_failed
        ≡ false }
    ensures ended { (replay (part_begun false ∷ begun true ∷ held (1 ∷ []) ∷ [])).is_begun ≡ false }
    ensures skipped { skips (part_settled Never true ∷ part_begun true ∷ held [] ∷ []) ≡ true }
{}

/// A part that takes the name before it is whole and durable leaves anything, and no sync makes the
/// file whole. While the name of a part isn't durable, no sync of the file makes anything durable.
pub fn parts_are_durable_first()
    ensures unsettled { MayLeave (part_named true ∷ part_begun true ∷ held (1 ∷ []) ∷ [])
        (7 ∷ 7 ∷ []) }
    ensures not_settled { MayLeave (part_named true ∷ part_settled Batch false ∷ part_begun true
        ∷ held (1 ∷ []) ∷ []) (7 ∷ 7 ∷ []) }
    ensures in_part { MayLeave (part_named true ∷ part_settled Batch true ∷ part_begun false
        ∷ held (1 ∷ []) ∷ []) (7 ∷ 7 ∷ []) }
    ensures never { MayLeave (synced Batch true ∷ part_kept Batch true ∷ part_named true
        ∷ part_begun true ∷ held (1 ∷ []) ∷ []) (7 ∷ 7 ∷ []) }
    ensures of_the_file { MayLeave (synced Batch true ∷ written 1 true (9 ∷ []) ∷ part_named true
        ∷ part_settled Batch true ∷ part_begun true ∷ held (1 ∷ 0 ∷ []) ∷ []) (1 ∷ 0 ∷ []) }
{}
