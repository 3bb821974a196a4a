//! The laws.

ghost use Rattle.zlinearizability.specs.clients.Laws.{CallsAreSentAgain, CallsBegin, ClientsHear, ServersFail};

/// A client receives an `Answer`, a `Config` or anything else.
pub fn clients_hear()
    ensures { ClientsHear }
{}

/// A client invokes a call.
pub fn calls_begin()
    ensures { CallsBegin }
{}

/// A call is sent again.
pub fn calls_are_sent_again()
    ensures { CallsAreSentAgain }
{}

/// A server fails.
pub fn servers_fail()
    ensures { ServersFail }
{}
