//! The laws. Each function's contract is a law; its body does nothing.

ghost use Rattle.zguard_laws.specs.Laws.{EveryGuardedFrontIsAFront, EveryLoginIsAnAuth};
ghost use Rattle.zguard_laws.specs.Laws.{NoStrangerMakesACall};

/// A front behind a guard is a front: it runs as any other, on the inputs that pass. So all laws of
/// fronts hold of it.
pub fn every_guarded_front_is_a_front()
    ensures { EveryGuardedFrontIsAFront }
{}

/// The front reads a frame that gave a login as the guard reads it, whatever the base is that it
/// tells zxids from.
pub fn every_login_is_an_auth()
    ensures { EveryLoginIsAnAuth }
{}

/// Every call in the log came of a connection that had given the `user:password` of a login. Others
/// are those of ticks, and those that open a session at a connect request. Whatever the steps
/// before were, and whichever log the first tree has.
pub fn no_stranger_makes_a_call()
    ensures { NoStrangerMakesACall }
{}
