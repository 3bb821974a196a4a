//! Worked examples. Each clause is one; the bodies do nothing. Server 2 has sent the master a
//! message (`reported`), its failure notice after that (`failed`), or the notice alone (`left`).

ghost use Rattle.std.specs.Prelude.{◌≡◌, None, Some, [], ◌∷◌, true, false};
ghost use Rattle.zprotocol.specs.declared.message.Message.TheVariants.{Gone};
ghost use Rattle.zprotocol.specs.declared.process.Process.TheVariants.{Master, Server};
ghost use Rattle.zworld.specs.links.Places.{holds, links_of, with_last, without_first};
ghost use Rattle.zworld.specs.links.Places.{notices_left, without_receiver, IsFrontOf, Precedes};
ghost use Rattle.zworld.specs.links.support.Rows.{failed, have, idle, left, reported};

/// A failure notice comes after all that its server had sent to the master. It is on no other
/// channel.
pub fn notices_come_last()
    ensures behind { links_of failed (Server 2) Master ≡ have ∷ Gone ∷ [] }
    ensures alone { links_of left (Server 2) Master ≡ Gone ∷ [] }
    ensures put { with_last (links_of reported) (Server 2) Master Gone (Server 2) Master
        ≡ links_of failed (Server 2) Master }
    ensures to_another { links_of failed (Server 2) (Server 1) ≡ [] }
    ensures from_another { links_of failed (Server 1) Master ≡ [] }
{}

/// The front is taken. A notice is the front where it is alone.
pub fn fronts_are_taken()
    ensures message { IsFrontOf (links_of failed (Server 2) Master) (Some have) }
    ensures notice_stays { without_first (links_of failed) (Server 2) Master (Server 2) Master
        ≡ Gone ∷ [] }
    ensures notice { IsFrontOf (links_of left (Server 2) Master) (Some Gone) }
    ensures notice_is_taken { without_first (links_of left) (Server 2) Master (Server 2) Master
        ≡ [] }
    ensures nothing { IsFrontOf (links_of idle (Server 2) Master) None }
{}

/// A notice is sought with the messages, and is dropped with those to the master.
pub fn notices_are_seen_and_dropped()
    ensures silent { holds (links_of idle (Server 2) Master) ≡ false }
    ensures sends { holds (links_of left (Server 2) Master) ≡ true }
    ensures dropped { without_receiver (links_of failed) Master (Server 2) Master ≡ [] }
    ensures is_left { notices_left left (without_receiver (links_of left) (Server 2)) (Server 2)
        ≡ true }
    ensures is_gone { notices_left left (without_receiver (links_of left) Master) (Server 2)
        ≡ false }
{}

/// Channels are in the order of senders, and those of one sender in the order of receivers.
pub fn channels_are_in_order()
    ensures by_sender { Precedes 1 5 2 0 }
    ensures by_receiver { Precedes 2 0 2 1 }
    ensures not_itself { Precedes 2 1 2 1 → ⊥ }
    ensures not_back { Precedes 2 0 1 5 → ⊥ }
{}
