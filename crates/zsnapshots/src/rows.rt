//! Worked examples of the definitions. Each function's contract has some; its body is empty.

ghost use Rattle.std.specs.Prelude.{◌≡◌, [], ◌∷◌, Some, Ok, Err};
ghost use Rattle.zcodec.specs.declared.fault.Fault.TheVariants.{Short, Invalid, Trailing};
ghost use Rattle.zwire.specs.declared.fault.FrameFault.TheVariants.{Cut, TooLong, Contents};
ghost use Rattle.zwire.specs.Frames.{IsFaultOf};
ghost use Rattle.zsnapshots.specs.Rows.{header_text, session_text, node_text, reply_text, row, term_number, term_from};
ghost use Rattle.ztree.specs.declared.term.Term.TheVariants.{Unlimited, Timed, Container};
ghost use Rattle.zcalls.specs.declared.reply.Reply.TheVariants.{Deleted};
ghost use Rattle.zops.specs.Machine.{opening_machine};
ghost use Rattle.zops.specs.Restored.{with_reply};
ghost use Rattle.zsnapshots.specs.States.{tree_alone};
ghost use Rattle.zsnapshots.specs.States.StateRow.{OfHeader};
ghost use Rattle.zsnapshots.specs.Loading.{nothing_loaded, rows_loaded, IsFollowed};
ghost use Rattle.zsnapshots.specs.support.Samples.{header, session, node, reply};

/// The bytes of a row of each kind.
pub fn rows_have_bytes()
    ensures header { (row header_text).spell header
        ≡ 0 ∷ 0 ∷ 0 ∷ 60 ∷ 0 ∷ 0 ∷ 0 ∷ 0 ∷ 0 ∷ 0 ∷ 0 ∷ 5 ∷ 0 ∷ 0 ∷ 0 ∷ 0 ∷ 0 ∷ 0 ∷ 0 ∷ 9 ∷ 0 ∷ 0
        ∷ 0 ∷ 0 ∷ 0 ∷ 0 ∷ 0 ∷ 12 ∷ 0 ∷ 0 ∷ 0 ∷ 0 ∷ 0 ∷ 0 ∷ 0 ∷ 6 ∷ 0 ∷ 0 ∷ 0 ∷ 0 ∷ 0 ∷ 0 ∷ 0 ∷ 7
        ∷ 0 ∷ 0 ∷ 0 ∷ 0 ∷ 0 ∷ 0 ∷ 0 ∷ 8 ∷ 0 ∷ 0 ∷ 0 ∷ 1 ∷ 0 ∷ 0 ∷ 0 ∷ 2 ∷ 0 ∷ 0 ∷ 0 ∷ 1 ∷ [] }
    ensures session { (row session_text).spell session
        ≡ 0 ∷ 0 ∷ 0 ∷ 25 ∷ 0 ∷ 0 ∷ 0 ∷ 0 ∷ 0 ∷ 0 ∷ 0 ∷ 3 ∷ 2 ∷ 0 ∷ 0 ∷ 0 ∷ 0 ∷ 0 ∷ 0 ∷ 0 ∷ 10
        ∷ 0 ∷ 0 ∷ 0 ∷ 0 ∷ 0 ∷ 0 ∷ 0 ∷ 19 ∷ [] }
    ensures node { (row node_text).spell node
        ≡ 0 ∷ 0 ∷ 0 ∷ 100 ∷ 0 ∷ 0 ∷ 0 ∷ 2 ∷ 47 ∷ 97 ∷ 0 ∷ 0 ∷ 0 ∷ 0 ∷ 0 ∷ 0 ∷ 0 ∷ 1 ∷ 0 ∷ 0 ∷ 0
        ∷ 0 ∷ 0 ∷ 0 ∷ 0 ∷ 2 ∷ 0 ∷ 0 ∷ 0 ∷ 0 ∷ 0 ∷ 0 ∷ 0 ∷ 3 ∷ 0 ∷ 0 ∷ 0 ∷ 0 ∷ 0 ∷ 0 ∷ 0 ∷ 4 ∷ 0
        ∷ 0 ∷ 0 ∷ 0 ∷ 0 ∷ 0 ∷ 0 ∷ 5 ∷ 0 ∷ 0 ∷ 0 ∷ 0 ∷ 0 ∷ 0 ∷ 0 ∷ 6 ∷ 0 ∷ 0 ∷ 0 ∷ 0 ∷ 0 ∷ 0 ∷ 0
        ∷ 7 ∷ 0 ∷ 0 ∷ 0 ∷ 0 ∷ 0 ∷ 0 ∷ 0 ∷ 8 ∷ 0 ∷ 0 ∷ 0 ∷ 0 ∷ 0 ∷ 0 ∷ 0 ∷ 9 ∷ 0 ∷ 0 ∷ 0 ∷ 0 ∷ 0
        ∷ 0 ∷ 0 ∷ 10 ∷ 0 ∷ 0 ∷ 0 ∷ 0 ∷ 0 ∷ 0 ∷ 0 ∷ 11 ∷ 0 ∷ 0 ∷ 0 ∷ 2 ∷ 104 ∷ 105 ∷ [] }
    ensures reply { (row reply_text).spell reply
        ≡ 0 ∷ 0 ∷ 0 ∷ 10 ∷ 2 ∷ 0 ∷ 0 ∷ 0 ∷ 0 ∷ 0 ∷ 0 ∷ 0 ∷ 7 ∷ 1 ∷ [] }
{}

/// The numbers of terms, and the terms that they are read as.
pub fn terms_have_numbers()
    ensures unlimited { term_number Unlimited ≡ 0 }
    ensures timed { term_number (Timed 10) ≡ 10 }
    ensures container { term_number Container ≡ 9223372036854775808 }
    ensures read_unlimited { term_from 0 ≡ Ok Unlimited }
    ensures read_timed { term_from 10 ≡ Ok (Timed 10) }
    ensures read_container { term_from 9223372036854775808 ≡ Ok Container }
    ensures too_long { term_from 1048577 ≡ Err Invalid }
{}

/// A row is read, and what follows it is left.
pub fn rows_are_read()
    ensures read { (row reply_text).read
        (0 ∷ 0 ∷ 0 ∷ 10 ∷ 2 ∷ 0 ∷ 0 ∷ 0 ∷ 0 ∷ 0 ∷ 0 ∷ 0 ∷ 7 ∷ 1 ∷ 9 ∷ [])
        ≡ Ok (reply, 9 ∷ []) }
{}

/// The tree of a state alone: no reply is cached, and no entry was applied.
pub fn trees_stand_alone()
    ensures { tree_alone (with_reply (record opening_machine { applied = 7 }) 3 5 Deleted)
        ≡ opening_machine }
{}

/// What was loaded: no row, or the header.
pub fn rows_are_loaded()
    ensures nothing { rows_loaded nothing_loaded ≡ [] }
    ensures header { rows_loaded (record nothing_loaded { header = Some header })
        ≡ OfHeader header ∷ [] }
{}

/// Whether more follows a whole frame.
pub fn frames_are_followed()
    ensures more { IsFollowed (0 ∷ 0 ∷ 0 ∷ 1 ∷ 7 ∷ 9 ∷ []) }
    ensures same { IsFollowed (0 ∷ 0 ∷ 0 ∷ 1 ∷ 7 ∷ 7 ∷ []) }
    ensures none { IsFollowed (0 ∷ 0 ∷ 0 ∷ 1 ∷ 7 ∷ []) → ⊥ }
    ensures cut { IsFollowed (0 ∷ 0 ∷ 0 ∷ 2 ∷ 7 ∷ []) → ⊥ }
{}

/// Bytes that don't begin with a row.
pub fn faults_are_reported()
    ensures none { IsFaultOf node_text [] Cut }
    ensures part { IsFaultOf reply_text (0 ∷ 0 ∷ 0 ∷ 10 ∷ 2 ∷ 0 ∷ 0 ∷ 0 ∷ 0 ∷ []) Cut }
    ensures too_long { IsFaultOf node_text (128 ∷ 0 ∷ 0 ∷ 1 ∷ []) TooLong }
    ensures client_32 { IsFaultOf reply_text
        (0 ∷ 0 ∷ 0 ∷ 10 ∷ 32 ∷ 0 ∷ 0 ∷ 0 ∷ 0 ∷ 0 ∷ 0 ∷ 0 ∷ 7 ∷ 1 ∷ []) (Contents Invalid) }
    ensures more { IsFaultOf reply_text
        (0 ∷ 0 ∷ 0 ∷ 11 ∷ 2 ∷ 0 ∷ 0 ∷ 0 ∷ 0 ∷ 0 ∷ 0 ∷ 0 ∷ 7 ∷ 1 ∷ 0 ∷ []) (Contents Trailing) }
    ensures short { IsFaultOf session_text (0 ∷ 0 ∷ 0 ∷ 3 ∷ 0 ∷ 0 ∷ 0 ∷ []) (Contents Short) }
{}
