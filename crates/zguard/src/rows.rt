//! Worked examples of the definitions. The functions do nothing.

ghost use Rattle.std.specs.Prelude.{◌≡◌, [], ◌∷◌, ◌++◌, codes, pos, true, false, None, Some};
ghost use Rattle.zjute.specs.Jute.{neg};
ghost use Rattle.zjute.specs.declared.code.Code.TheVariants.{AuthFailed, SessionClosedRequireSaslAuth};
ghost use Rattle.zguard.specs.declared.visitor.Standing.TheVariants.{Admitted, Refused, Silent, Stranger};
ghost use Rattle.zguard.specs.Judging.{Admits, Refuses, Waits, head_of, is_given, judged, refusal};
ghost use Rattle.zguard.specs.Guarding.{greeting_heard, heard_in, no_frame, refused, stranger_heard};
ghost use Rattle.zguard.specs.support.Samples.{ann, answer_with, auth_frame_with, greeting_frame};
ghost use Rattle.zguard.specs.support.Samples.{ping, ping_frame};

/// Credentials, and the logins.
pub fn who_gives_a_login()
    ensures listed { is_given (ann ∷ []) (Some (codes "digest")) (Some (codes "ann:secret")) ≡ true }
    ensures other { is_given (ann ∷ []) (Some (codes "digest")) (Some (codes "ann:word")) ≡ false }
    ensures scheme { is_given (ann ∷ []) (Some (codes "ip")) (Some (codes "ann:secret")) ≡ false }
    ensures null { is_given (ann ∷ []) (Some (codes "digest")) None ≡ false }
    ensures null_scheme { is_given (ann ∷ []) None (Some (codes "ann:secret")) ≡ false }
{}

/// Refusals: the header of a reply, with the zxid 0.
#[tactic(auto, unfolding(zjute::specs::Replies::reply_text, zjute::specs::Jute::int, zjute::specs::Jute::long, zcodec::specs::Forms::number_at))]
pub fn strangers_are_refused()
    ensures ping { refusal (neg 2) SessionClosedRequireSaslAuth
        ≡ answer_with (255 ∷ 255 ∷ 255 ∷ 254 ∷ []) (255 ∷ 255 ∷ 255 ∷ 132 ∷ []) }
    ensures auth { refusal (neg 4) AuthFailed
        ≡ answer_with (255 ∷ 255 ∷ 255 ∷ 252 ∷ []) (255 ∷ 255 ∷ 255 ∷ 141 ∷ []) }
    ensures head { head_of ping ≡ Some (neg 2, pos 11) }
    ensures no_head { head_of (0 ∷ 0 ∷ 0 ∷ 7 ∷ []) ≡ None }
{}

/// What the bytes behind a connect request bring. A part of a request suffices.
#[tactic(auto, unfolding(zjute::specs::Asking::request, zjute::specs::Frames::next_of, zjute::specs::Jute::int, zjute::specs::Jute::long, zcodec::specs::Forms::number_at))]
pub fn strangers_are_judged()
    ensures login { judged (ann ∷ []) (auth_frame_with (codes "ann:secret")) ≡ Admits }
    ensures wrong { judged (ann ∷ []) (auth_frame_with (codes "ann:Secret"))
        ≡ Refuses (refusal (neg 4) AuthFailed) }
    ensures ping { judged (ann ∷ []) ping_frame
        ≡ Refuses (refusal (neg 2) SessionClosedRequireSaslAuth) }
    ensures part { judged (ann ∷ []) (0 ∷ 0 ∷ 3 ∷ 232 ∷ ping)
        ≡ Refuses (refusal (neg 2) SessionClosedRequireSaslAuth) }
    ensures short { judged (ann ∷ []) (0 ∷ 0 ∷ 0 ∷ 4 ∷ 0 ∷ 0 ∷ 0 ∷ 7 ∷ []) ≡ Refuses [] }
    ensures nothing { judged (ann ∷ []) [] ≡ Waits }
    ensures too_long { judged (ann ∷ []) no_frame ≡ Refuses [] }
{}

/// What passes, and what is stored.
#[tactic(auto, unfolding(zjute::specs::Asking::request, zjute::specs::Frames::next_of, zjute::specs::Jute::int, zjute::specs::Jute::long, zcodec::specs::Forms::number_at))]
pub fn bytes_pass()
    ensures greeting { greeting_heard (ann ∷ []) greeting_frame
        ≡ record { passed = greeting_frame; standing = Stranger; bytes = [] } }
    ensures part { greeting_heard (ann ∷ []) (0 ∷ 0 ∷ 0 ∷ 3 ∷ 1 ∷ [])
        ≡ record { passed = []; standing = Silent; bytes = 0 ∷ 0 ∷ 0 ∷ 3 ∷ 1 ∷ [] } }
    ensures word { greeting_heard (ann ∷ []) (codes "ruok")
        ≡ record { passed = codes "ruok"; standing = Refused; bytes = [] } }
    ensures request { greeting_heard (ann ∷ []) (greeting_frame ++ ping_frame)
        ≡ refused greeting_frame (refusal (neg 2) SessionClosedRequireSaslAuth) }
    ensures login { stranger_heard (ann ∷ []) [] (auth_frame_with (codes "ann:secret") ++ ping_frame)
        ≡ record { passed = auth_frame_with (codes "ann:secret") ++ ping_frame; standing = Admitted; bytes = [] } }
    ensures admitted { heard_in Admitted (ann ∷ []) [] ping_frame
        ≡ record { passed = ping_frame; standing = Admitted; bytes = [] } }
    ensures refused { heard_in Refused (ann ∷ []) [] ping_frame
        ≡ record { passed = []; standing = Refused; bytes = [] } }
{}
