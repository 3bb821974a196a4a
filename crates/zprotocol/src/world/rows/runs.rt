//! Worked runs of a chain in which no server fails.

ghost use Rattle.std.specs.Prelude.{◌≡◌, [], ◌∷◌, take};
ghost use Rattle.zprotocol.specs.declared.world.event.Event.TheVariants.{Begin, Retry, Take, Ignore, Fail};
ghost use Rattle.zprotocol.specs.world.Orders.{Join};
ghost use Rattle.zprotocol.specs.server.View.{spare};
ghost use Rattle.zprotocol.specs.world.support.Counter.{create, exists};
ghost use Rattle.zprotocol.specs.world.support.RunRows.{seen, link, view, CanHappen, CannotHappen, s1, s2, c1};
ghost use Rattle.zprotocol.specs.world.support.RunRows.{began, reported, create_begun, first_entry, update_in_turn};
ghost use Rattle.zprotocol.specs.world.support.RunRows.{two_updates, other_then_first, retried_update, late_answer};
ghost use Rattle.zprotocol.specs.world.support.RunRows.{one_create, two_creates, request, two_answers};

/// An update goes down the chain. Only the tail answers it, and the acknowledgement empties every
/// Sent.
pub fn update_is_answered_by_the_tail()
    ensures head_is_silent { link 3 (take 2 update_in_turn) s1 c1 ≡ [] }
    ensures kept { (view 3 (take 5 update_in_turn) 1).sent ≡ (1, first_entry) ∷ [] }
    ensures unseen { seen 3 (take 4 update_in_turn) ≡ began 1 1 ∷ [] }
    ensures answered { seen 3 (take 5 update_in_turn) ≡ one_create }
    ensures acknowledged { (view 3 update_in_turn 1).sent ≡ [] }
    ensures all_have_it { (view 3 update_in_turn 1).last ≡ 1 }
    ensures nothing_is_left { link 3 update_in_turn s2 s1 ≡ [] }
{}

/// Channels preserve order: the update that the head received first acts first, whichever response
/// is received first.
pub fn links_keep_order()
    ensures under_way { link 3 (take 4 two_updates) s1 s2 ≡ other_then_first }
    ensures seen { seen 3 two_updates ≡ began 0 1 ∷ began 1 1 ∷ reported 1 1 1 ∷ reported 0 1 0 ∷
        [] }
{}

/// An update that arrives twice acts once. Its cached reply is sent again, and the client receives
/// one of the two; its next call ignores the other.
pub fn retried_update_counts_once()
    ensures two_answers { link 2 (take 6 retried_update) s2 c1 ≡ two_answers }
    ensures one_is_taken { seen 2 (take 8 retried_update) ≡ one_create }
    ensures stale_answer { seen 2 late_answer ≡ began 1 1 ∷ reported 1 1 0 ∷ began 1 2 ∷ [] }
    ensures next_count { seen 2 retried_update ≡ two_creates }
{}

/// Which events are enabled; one that isn't changes nothing.
pub fn only_enabled_events_happen()
    ensures busy_client { CannotHappen 3 create_begun (Begin 1 exists) }
    ensures strange_client { CannotHappen 3 [] (Begin 2 create) }
    ensures nothing_to_retry { CannotHappen 3 [] (Retry 1) }
    ensures empty_link { CannotHappen 3 [] (Take c1 s1) }
    ensures server_message_is_not_ignored { CannotHappen 3 (take 2 update_in_turn) (Ignore s1 s2) }
    ensures failed_taker { CannotHappen 3 (Begin 1 create ∷ Fail 1 ∷ []) (Take c1 s1) }
    ensures failed_ignorer { CannotHappen 3 (Begin 1 create ∷ Fail 1 ∷ []) (Ignore c1 s1) }
    ensures failed_twice { CannotHappen 3 (Fail 1 ∷ []) (Fail 1) }
    ensures spare_can_fail { CanHappen 3 [] (Fail 4) }
    ensures server_0_does_not_fail { CannotHappen 3 [] (Fail 0) }
    ensures server_17_does_not_fail { CannotHappen 3 [] (Fail 17) }
    ensures server_17_does_not_join { CannotHappen 3 [] (Join 17) }
    ensures server_16_joins { CanHappen 3 [] (Join 16) }
    ensures member_joins { CannotHappen 3 [] (Join 3) }
    ensures spare_joins { CanHappen 3 [] (Join 4) }
    ensures unchanged { link 3 (Begin 1 create ∷ Take c1 s2 ∷ []) c1 s1 ≡ request }
    ensures let_go { link 3 (Begin 1 create ∷ Fail 1 ∷ []) c1 s1 ≡ [] }
    ensures view_is_let_go { view 3 (Fail 1 ∷ []) 1 ≡ spare }
{}

/// A request may be lost, and the client sends it again.
pub fn request_is_lost()
    ensures lost { link 3 (Begin 1 create ∷ Ignore c1 s1 ∷ []) c1 s1 ≡ [] }
    ensures nothing_done { (view 3 (Begin 1 create ∷ Ignore c1 s1 ∷ []) 1).last ≡ 0 }
    ensures asked_again { link 3 (Begin 1 create ∷ Ignore c1 s1 ∷ Retry 1 ∷ []) c1 s1 ≡ request }
{}
