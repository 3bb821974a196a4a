//! Laws of the definitions. Each function's contract is a law; its body is empty.

ghost use Rattle.zwire.specs.Laws.{IsReadAgain, WasSpelled, AreDistinct, BeginningsAreCut};
ghost use Rattle.zwire.specs.Laws.{FaultsStay};

/// A message that fits is read again from its frame, whatever follows. What is read from bytes was
/// spelled so, and fits.
pub fn every_message_is_read_again()
    ensures again { IsReadAgain }
    ensures spelled { WasSpelled }
{}

/// No stream begins with two different frames.
pub fn frames_are_distinct()
    ensures { AreDistinct }
{}

/// A frame without its end is cut: more bytes are needed. Bytes that are neither cut nor a frame
/// stay so, whatever follows.
pub fn only_cut_frames_want_more()
    ensures cut { BeginningsAreCut }
    ensures others { FaultsStay }
{}
