//! Worked examples of the definitions. Each function's contract has some; its body is empty.

ghost use Rattle.std.specs.Prelude.{◌≡◌, [], ◌∷◌, None, Some};
ghost use Rattle.zprotocol.specs.declared.process.Process.TheVariants.{Master, Server};
ghost use Rattle.zsnapshots.specs.States.StateRow.{OfHeader};
ghost use Rattle.zsnapshots.specs.support.Samples.{header};
ghost use Rattle.zpeers.specs.declared.fault.PeerFault.TheVariants.{NoTag, RowsAwaited, NothingLoaded};
ghost use Rattle.zpeers.specs.declared.fault.PeerFault.TheVariants.{NotEmpty, OtherSender, OtherReceiver};
ghost use Rattle.zpeers.specs.Records.{link_record, row_record, end_record};
ghost use Rattle.zpeers.specs.Outgoing.{records_for, left_of, place_after};
ghost use Rattle.zpeers.specs.Incoming.{Accepts, IsPeerFault};
ghost use Rattle.zpeers.specs.support.Samples.{retire, order, begun, tags, waiting};

/// The bytes of records.
pub fn records_have_bytes()
    ensures frame { link_record.spell order ≡ 0 ∷ 0 ∷ 0 ∷ 0 ∷ 4 ∷ 0 ∷ 1 ∷ 2 ∷ 11 ∷ [] }
    ensures row { link_record.spell (row_record (OfHeader header))
        ≡ 1 ∷ 0 ∷ 0 ∷ 0 ∷ 60 ∷ 0 ∷ 0 ∷ 0 ∷ 0 ∷ 0 ∷ 0 ∷ 0 ∷ 5 ∷ 0 ∷ 0 ∷ 0 ∷ 0 ∷ 0 ∷ 0 ∷ 0 ∷ 9 ∷ 0
        ∷ 0 ∷ 0 ∷ 0 ∷ 0 ∷ 0 ∷ 0 ∷ 12 ∷ 0 ∷ 0 ∷ 0 ∷ 0 ∷ 0 ∷ 0 ∷ 0 ∷ 6 ∷ 0 ∷ 0 ∷ 0 ∷ 0 ∷ 0 ∷ 0 ∷ 0
        ∷ 7 ∷ 0 ∷ 0 ∷ 0 ∷ 0 ∷ 0 ∷ 0 ∷ 0 ∷ 8 ∷ 0 ∷ 0 ∷ 0 ∷ 1 ∷ 0 ∷ 0 ∷ 0 ∷ 2 ∷ 0 ∷ 0 ∷ 0 ∷ 1 ∷ [] }
    ensures end { link_record.spell end_record ≡ 2 ∷ 0 ∷ 0 ∷ 0 ∷ 0 ∷ [] }
{}

/// What waits, and what is left of a message after some of its records were written.
pub fn records_wait()
    ensures both { tags (records_for waiting (Server 2) (Server 1)) ≡ 0 ∷ 0 ∷ [] }
    ensures other { records_for waiting (Server 2) (Server 3) ≡ [] }
    ensures written { left_of Master (Server 2) (record { message = retire; written = 1 }) ≡ [] }
    ensures first { place_after None ≡ 0 }
    ensures next { place_after (Some (Server 1)) ≡ 2 }
{}

/// A message is whole by its frame. That of a snapshot begins it.
pub fn frames_are_accepted()
    ensures message { Accepts (Server 2) Master order None None (Some retire) }
{}

/// Records that are refused.
pub fn records_are_refused()
    ensures tag { IsPeerFault (Server 2) Master (record { tag = 3; bytes = [] }) None NoTag }
    ensures awaited { IsPeerFault (Server 2) Master order (Some begun) RowsAwaited }
    ensures nothing { IsPeerFault (Server 2) Master end_record None NothingLoaded }
    ensures sender { IsPeerFault (Server 2) (Server 1) order None OtherSender }
    ensures receiver { IsPeerFault (Server 3) Master order None OtherReceiver }
    ensures bytes { IsPeerFault (Server 2) (Server 1) (record { tag = 2; bytes = 0 ∷ [] })
        (Some begun) NotEmpty }
{}
