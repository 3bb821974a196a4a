//! Laws of the definitions. Each function's contract is a law; its body does nothing.

ghost use Rattle.zjute.specs.Frames.{FramesAreCut, OneSplit};
ghost use Rattle.zjute.specs.Laws.{RequestsAreDistinct, GreetingsAreDistinct, StatsAreDistinct};

/// Received bytes are cut into frames in one way, in whatever chunks they arrived.
pub fn one_split()
    ensures { OneSplit }
{}

/// A frame that was written is cut off whole, whatever bytes follow it.
pub fn frames_are_cut()
    ensures { FramesAreCut }
{}

/// Two different requests have different bytes. So have two first frames, and two stats.
pub fn bytes_are_distinct()
    ensures requests { RequestsAreDistinct }
    ensures greetings { GreetingsAreDistinct }
    ensures stats { StatsAreDistinct }
{}
