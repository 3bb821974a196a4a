//! Answers as frames.

ghost use Rattle.std.specs.Prelude.{◌≡◌, ◌<◌, ℤ, pos, true, false, [], ◌∷◌, ◌++◌, length, None, Some};
ghost use Rattle.zjute.specs.Jute.{neg};
ghost use Rattle.zjute.specs.declared.limits.TheConstants.{MAX_FRAME};
ghost use Rattle.zjute.specs.declared.code.Code.TheVariants as code;
ghost use Rattle.zjute.specs.declared.reply.Body.TheVariants as body;
ghost use Rattle.zresponses.specs.declared.answer.Answer.{Answer};
ghost use Rattle.zresponses.specs.Answers.{done, failed};
ghost use Rattle.zresponses.specs.effects.Frames.{answer_text, too_long, text_reported, answer_frame, ends_connection};
ghost use Rattle.zresponses.specs.effects.Frames.{flag_reported, response_frame};
ghost use Rattle.zresponses.specs.effects.support.Samples.{greeting, some_password};

/// The answer to a ping, after change 8: its xid is -2.
#[tactic(auto, unfolding(zjute::specs::Replies::reply_text, zjute::specs::Jute::int, zjute::specs::Jute::long))]
pub fn a_ping_is_answered()
    ensures frame { answer_frame (pos 8) (neg 2) (done body.Nothing)
        ≡ 0 ∷ 0 ∷ 0 ∷ 16 ∷ 255 ∷ 255 ∷ 255 ∷ 254 ∷ 0 ∷ 0 ∷ 0 ∷ 0 ∷ 0 ∷ 0 ∷ 0 ∷ 8
        ∷ 0 ∷ 0 ∷ 0 ∷ 0 ∷ [] }
{}

/// An answer that no frame can hold.
pub fn long_answers()
    ensures error { too_long ≡ failed code.MarshallingError }
    ensures reported { (zxid xid : ℤ) (answer : Answer)
        → MAX_FRAME < length (answer_text zxid xid answer)
        → text_reported zxid xid answer ≡ answer_text zxid xid too_long }
{}

/// The codes after which a connection is closed.
pub fn codes_that_end_connections()
    ensures auth { ends_connection code.AuthFailed ≡ true }
    ensures ok { ends_connection code.Ok ≡ false }
    ensures expired { ends_connection code.SessionExpired ≡ false }
{}

/// A connect response: session 7 with 8,000 milliseconds.
#[tactic(auto, unfolding(zjute::specs::Connecting::connect_response, zjute::specs::Jute::int, zjute::specs::Jute::long, zjute::specs::Jute::text))]
pub fn a_first_frame_is_answered()
    ensures frame { response_frame greeting (pos 8000) (pos 7) some_password
        ≡ 0 ∷ 0 ∷ 0 ∷ 37 ∷ 0 ∷ 0 ∷ 0 ∷ 0 ∷ 0 ∷ 0 ∷ 31 ∷ 64
        ∷ 0 ∷ 0 ∷ 0 ∷ 0 ∷ 0 ∷ 0 ∷ 0 ∷ 7 ∷ 0 ∷ 0 ∷ 0 ∷ 16 ∷ (some_password ++ 0 ∷ []) }
    ensures old { flag_reported (record greeting { read_only = None }) ≡ None }
    ensures reads { flag_reported (record greeting { read_only = Some true }) ≡ Some false }
{}
