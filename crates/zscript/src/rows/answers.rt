//! Worked examples of a line's answer.

ghost use Rattle.std.specs.Prelude.{◌≡◌, [], ◌∷◌, codes, Some, None};
ghost use Rattle.zpath.specs.declared.fault.PathFault.TheVariants.{Empty};
ghost use Rattle.zcalls.specs.declared.reply.Reply.TheVariants.{Children, Deleted, Pinged};
ghost use Rattle.zprotocol.specs.declared.master.order_fault.OrderFault.TheVariants.{Used, NotMember};
ghost use Rattle.zprotocol.specs.declared.master.order_fault.OrderFault.TheVariants.{Joining, NoChain};
ghost use Rattle.zprotocol.specs.declared.master.order_fault.OrderFault.TheVariants.{Lost, Last, Retiring};
ghost use Rattle.zprotocol.specs.declared.client.begin_fault.BeginFault.TheVariants.{Busy, Exhausted};
ghost use Rattle.zprotocol.specs.declared.world.settled.Settled.TheVariants.{Quiet, Limit};
ghost use Rattle.zscript_text.specs.declared.request.LineFault.TheVariants.{BadLine, BadPath, BadData};
ghost use Rattle.zscript.specs.declared.limits.TheConstants.{BLOCK, KEPT, MAX_EVENTS};
ghost use Rattle.zprotocol.specs.declared.world.history.CallEvent.TheVariants.{Answer};
ghost use Rattle.zscript.specs.Line.{taken_text, reply_in, order_fault_name, begin_fault_text, settled_text};
ghost use Rattle.zscript.specs.Line.{line_fault_text};
ghost use Rattle.zscript.specs.support.Rows.{AreAnswered, row, begins, takes, takes_none, text_line, call_2, call_3};

/// Events that aren't enabled, failures and joins.
#[tactic(auto, unfolding(crate::specs::Line::effect_of, crate::specs::Line::answer, crate::specs::Line::after, zscript_text::specs::Line::line_of, zprotocol::specs::master::Table::order_fault))]
pub fn chain_lines()
    ensures own_link { AreAnswered (row "take s1 s1" "idle" ∷ []) }
    ensures no_server { AreAnswered (row "take s17 m" "bad line" ∷ []) }
    ensures fails_once { AreAnswered (row "fail s1" "done" ∷ row "fail s1" "idle" ∷ []) }
    ensures used { AreAnswered (row "join s1" "no Used" ∷ []) }
    ensures only_member { AreAnswered (row "retire s1" "no Last" ∷ []) }
    ensures not_member { AreAnswered (row "retire s2" "no NotMember" ∷ []) }
    ensures nothing_outstanding { AreAnswered (row "retry c1" "idle" ∷ []) }
{}

/// Calls that are invoked without settling, and are delivered, lost and sent again; and joins.
pub fn chain_calls()
    ensures begun { AreAnswered (begins ∷ row "1 begin ls /" "busy" ∷ []) }
    ensures taken { AreAnswered (begins ∷ takes ∷ takes_none ∷ row "retry c1" "done" ∷ []) }
    ensures lost { AreAnswered (begins ∷ row "ignore c1 s1" "done" ∷ takes_none ∷ []) }
    ensures joins { AreAnswered (row "join s2" "done" ∷ row "join s3" "no Joining" ∷ []) }
{}

/// A response that a client received is written under the client's name, except the one to the
/// line's own call.
pub fn answers_are_reported()
    ensures reported { taken_text None (Answer 1 2 (Children [])) ≡ text_line "c1 ok 0" }
    ensures other_call { taken_text call_3 (Answer 1 2 Deleted) ≡ text_line "c1 ok deleted" }
    ensures own_call { taken_text call_2 (Answer 1 2 (Children [])) ≡ [] }
    ensures own_reply { reply_in call_2 (Answer 1 1 Pinged ∷ Answer 1 2 Deleted ∷ [])
        ≡ Some Deleted }
    ensures no_reply { reply_in call_2 (Answer 2 2 Deleted ∷ []) ≡ None }
{}

/// The texts for refused joins, calls and lines, and for the ends of settling. Some of them no
/// script can produce.
pub fn words_of_answers()
    ensures used { order_fault_name Used ≡ codes "Used" }
    ensures joining { order_fault_name Joining ≡ codes "Joining" }
    ensures no_chain { order_fault_name NoChain ≡ codes "NoChain" }
    ensures lost { order_fault_name Lost ≡ codes "Lost" }
    ensures retiring { order_fault_name Retiring ≡ codes "Retiring" }
    ensures not_member { order_fault_name NotMember ≡ codes "NotMember" }
    ensures last { order_fault_name Last ≡ codes "Last" }
    ensures busy { begin_fault_text Busy ≡ codes "busy" }
    ensures no_numbers { begin_fault_text Exhausted ≡ codes "no Numbers" }
    ensures quiet { settled_text Quiet ≡ codes "quiet" }
    ensures limit { settled_text Limit ≡ codes "limit" }
    ensures bad_line { line_fault_text BadLine ≡ codes "bad line" }
    ensures bad_path { line_fault_text (BadPath Empty) ≡ codes "bad path Empty" }
    ensures bad_data { line_fault_text BadData ≡ codes "bad data" }
{}

/// The limits, as numbers.
pub fn limits_are_numbers()
    ensures events { MAX_EVENTS ≡ 100000 }
    ensures block { BLOCK ≡ 65536 }
    ensures kept { KEPT ≡ 524289 }
{}
