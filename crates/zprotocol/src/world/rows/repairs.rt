//! Worked runs in which a server fails.

ghost use Rattle.std.specs.Prelude.{◌≡◌, [], ◌∷◌, ◌++◌, None, Some, take};
ghost use Rattle.zprotocol.specs.declared.message.Message.TheVariants as message;
ghost use Rattle.zprotocol.specs.declared.world.event.Event.TheVariants.{Take, Fail};
ghost use Rattle.zprotocol.specs.world.support.RunRows.{seen, link, view, m, s1, s2, s3, c1, first_entry};
ghost use Rattle.zprotocol.specs.world.support.RepairRows.{head_fails, head_fails_and_is_asked_again};
ghost use Rattle.zprotocol.specs.world.support.RepairRows.{head_fails_first, tail_fails, middle_fails};
ghost use Rattle.zprotocol.specs.world.support.RunRows.{one_create, request, two_answers, config};

/// The head fails after it forwarded an update: its successor becomes the head, and the update is
/// answered.
pub fn head_fails_after_it_forwarded()
    ensures gone { link 3 (take 4 head_fails) s1 m ≡ message.Gone ∷ [] }
    ensures reported { link 3 (take 5 head_fails) m s2 ≡ message.BecomeHead 1 ∷ [] }
    ensures head { (view 3 (take 6 head_fails) 2).pred ≡ None }
    ensures seen { seen 3 head_fails ≡ one_create }
{}

/// The same, where the client also sends to the new head: the update acts once, and is answered
/// once.
pub fn new_head_is_asked_again()
    ensures reported { link 3 (take 6 head_fails_and_is_asked_again) m c1 ≡ config 1 2 3 }
    ensures asked { link 3 (take 7 head_fails_and_is_asked_again) c1 s2 ≡ request }
    ensures two_answers { link 3 (take 10 head_fails_and_is_asked_again) s3 c1 ≡ two_answers }
    ensures seen { seen 3 head_fails_and_is_asked_again ≡ one_create }
{}

/// What a failed server had sent is still delivered. It counts until its receiver has learnt of the
/// failure.
pub fn messages_outlive_their_sender()
    ensures in_time { (view 3 (take 2 head_fails_first ++ Fail 1 ∷ Take s1 s2 ∷ []) 2).last ≡ 1 }
    ensures too_late { (view 3 head_fails_first 2).last ≡ 0 }
    ensures taken { link 3 head_fails_first s1 s2 ≡ [] }
{}

/// The tail fails before it answered: its predecessor becomes the tail, and answers with its cached
/// reply.
pub fn tail_fails_before_it_answered()
    ensures reported { link 3 (take 5 tail_fails) m s2 ≡ message.BecomeTail 1 ∷ [] }
    ensures tail { (view 3 (take 6 tail_fails) 2).succ ≡ None }
    ensures processed { (view 3 (take 6 tail_fails) 2).sent ≡ [] }
    ensures silent { link 3 (take 6 tail_fails) s2 c1 ≡ [] }
    ensures acted_once { (view 3 (take 9 tail_fails) 2).last ≡ 2 }
    ensures seen { seen 3 tail_fails ≡ one_create }
{}

/// The middle fails: the tail reports its last number to the master, the master sends it to the
/// head, and the head sends what follows.
pub fn middle_fails_before_it_forwarded()
    ensures unsent { link 3 (take 2 middle_fails) s1 s2 ≡ message.Update 0 1 first_entry ∷ [] }
    ensures lost { link 3 (take 3 middle_fails) s1 s2 ≡ [] }
    ensures new_pred { link 3 (take 4 middle_fails) m s3 ≡ message.NewPred 1 1 ∷ [] }
    ensures has_none { link 3 (take 5 middle_fails) s3 m ≡ message.Have 1 (Some 0) ∷ [] }
    ensures new_succ { link 3 (take 6 middle_fails) m s1 ≡ message.NewSucc 1 3 (Some 0) ∷ [] }
    ensures sent_again { link 3 (take 7 middle_fails) s1 s3 ≡ message.Update 1 1 first_entry ∷ [] }
    ensures still_kept { (view 3 (take 7 middle_fails) 1).sent ≡ (1, first_entry) ∷ [] }
    ensures seen { seen 3 (take 9 middle_fails) ≡ one_create }
    ensures acknowledged { (view 3 middle_fails 1).sent ≡ [] }
{}
