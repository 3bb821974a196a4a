//! The meaning of a line.

use crate::request::Request;
use zcalls::ClientId;
use zprotocol::{Order, Process, ServerId};

/// The meaning of a line.
#[derive(Drop)]
pub enum Line {
    /// A client's call, from its invocation to its reply.
    Call(Request),
    /// A client's call is only invoked.
    Begin(Request),
    /// The first message on the link from the first process to the second is delivered.
    Take(Process, Process),
    /// The first message on that link, a client's request, is lost.
    Ignore(Process, Process),
    /// A server fails permanently.
    Fail(ServerId),
    /// A server is asked to join the chain, or a member is ordered to leave it.
    Order(Order),
    /// A client sends its outstanding call again.
    Retry(ClientId),
    /// Messages are delivered until none is left.
    Settle,
}
