//! Traces.

ghost use Rattle.std.specs.Prelude.{◌≤◌, length};
ghost use Rattle.zprotocol.specs.declared.limits.TheConstants.{MAX_SERVERS};
ghost use Rattle.ztree.specs.declared.limits.TheConstants.{MAX_CLIENTS};

use crate::traces::stamp::Stamp;
use crate::world::{CallEvent, Outcome};
use crate::{Order, Process, ServerId};
use zcalls::Call;

/// What a process did.
#[derive(Drop)]
pub enum Act {
    /// It received the next message of the channel from this process. It acted on the message, or
    /// ran out of memory: then it dropped a query, or stopped.
    Took(Process, Outcome),
    /// A client invoked this call.
    Began(Call),
    /// A client sent its outstanding call again.
    Retried,
    /// The master was given this order, and obeyed or refused it.
    Ordered(Order),
    /// A server received the master's order to leave, and stopped for good.
    Left,
    /// A server was halted.
    Halted,
}

/// One event of a trace.
#[derive(Drop)]
pub struct TraceEvent {
    /// Its timestamp.
    pub stamp: Stamp,
    /// What the process did.
    pub act: Act,
}

/// What a process did, in order.
#[derive(Drop)]
pub struct Trace {
    /// The events, oldest first.
    pub events: Vec<TraceEvent>,
    /// Whether it may lack events at its end. Then nothing can be said of the run.
    pub is_cut: bool,
}

/// A client's trace, with what its caller saw.
#[derive(Drop)]
pub struct ClientTrace {
    /// What it did.
    pub trace: Trace,
    /// The calls that it invoked and the answers that it returned, in order, as in a history.
    pub record: Vec<CallEvent>,
}

/// The traces of all processes of a run.
#[derive(Drop)]
pub struct Traces {
    /// The last server of the initial chain.
    pub last: ServerId,
    /// The master's trace.
    pub master: Trace,
    /// The servers' traces, by number from 1, including spare servers.
    pub servers: Vec<Trace>,
    /// The clients' traces, by number from 0: one for each client.
    pub clients: Vec<ClientTrace>,
    ghost few_servers: { length servers.items ≤ MAX_SERVERS },
    ghost few_clients: { length clients.items ≤ MAX_CLIENTS },
}
