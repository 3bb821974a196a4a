//! The laws. Each function's contract is a law; its body does nothing.

ghost use Rattle.zguard.specs.Laws.{AllPassesOfTheAdmitted, StrangersPassTheirFirstFrame};
ghost use Rattle.zguard.specs.Laws.{WhoIsAdmittedGaveALogin};

/// A connection is admitted only if the second of its frames gave a login: an auth of the scheme
/// `digest`, with the `user:password` of one of the logins.
pub fn who_is_admitted_gave_a_login()
    ensures { WhoIsAdmittedGaveALogin }
{}

/// All bytes of a connection that is admitted have passed, each once and in order.
pub fn all_passes_of_the_admitted()
    ensures { AllPassesOfTheAdmitted }
{}

/// Of any other connection nothing passes but its first frame, or bytes that begin with no frame.
/// A length that no frame has may follow, which makes the server close it.
pub fn strangers_pass_their_first_frame()
    ensures { StrangersPassTheirFirstFrame }
{}
