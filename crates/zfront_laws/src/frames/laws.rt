//! The laws. Each function's contract is a law; its body does nothing.

ghost use Rattle.zfront_laws.specs.frames.Laws.{EveryConnectionIsAnswered};

/// Each connection gets the connect response, or the text of a four letter word and the close. Then
/// it gets one frame for each request, in order, under its xid, with events between them. Until a
/// close, each whole frame that arrived is answered, and after the close nothing is sent.
///
/// The answers come from the replies of one log of all connections, which is one plain tree's. A
/// session is given only to a client that opened it, or that gave the password which the secret
/// derives for it. The host must use a number for one connection at a time.
pub fn every_connection_is_answered()
    ensures { EveryConnectionIsAnswered }
{}
