//! The traces by index: the master's first, then the servers', then the clients'.

ghost use Rattle.std.specs.Prelude.{◌≡◌, ◌<◌, ◌≤◌, ◌+◌, ◌^◌, length, get_or};
ghost use Rattle.zprotocol.specs.declared.limits.TheConstants.{PROCESSES};
ghost use Rattle.zprotocol.specs.traces.support.Places.{place_count, process_at, head_at};
ghost use Rattle.zaudit.specs.support.Heads.{trace_at, IsNextAt};

use zcalls::ClientId;
use zprotocol::traces::{TraceEvent, Traces};
use zprotocol::{Process, ServerId};

/// Returns how many traces there are.
pub(crate) fn count_of(traces: &Traces) -> usize
    ensures count { result ≡ place_count traces.now }
    ensures small { result ≤ PROCESSES }
{
    1 + traces.servers.len() + traces.clients.len()
}

/// Returns whose trace it is.
pub(crate) fn process_in(traces: &Traces, place: usize) -> Process
    requires { place < place_count traces.now }
    ensures { result ≡ process_at traces.now place }
{
    if place == 0 {
        return Process::Master;
    }
    if place <= traces.servers.len() {
        return match ServerId::new(place as u8) {
            Some(server) => Process::Server(server),
            None => unreachable!(),
        };
    }
    match ClientId::new((place - (1 + traces.servers.len())) as u8) {
        Some(client) => Process::Client(client),
        None => unreachable!(),
    }
}

/// Returns the events of that trace.
pub(crate) fn events_at(traces: &Traces, place: usize) -> &[TraceEvent]
    requires { place < place_count traces.now }
    ensures { result.now ≡ trace_at traces.now place }
{
    if place == 0 {
        return &traces.master.events;
    }
    if place <= traces.servers.len() {
        return &traces.servers[place - 1].events;
    }
    &traces.clients[place - (1 + traces.servers.len())]
        .trace
        .events
}

/// Returns the timestamp of its next event, if there is one.
pub(crate) fn head_of(traces: &Traces, read: &[usize], place: usize) -> Option<u64>
    requires place { place < place_count traces.now }
    requires read { length read.now ≡ place_count traces.now }
    ensures { result ≡ head_at traces.now read.now place }
{
    match events_at(traces, place).get(read[place]) {
        Some(event) => Some(event.stamp.number()),
        None => None,
    }
}

/// Returns the next event of that trace, which has one.
pub(crate) fn event_at<'a>(traces: &'a Traces, read: &[usize], place: usize) -> &'a TraceEvent
    requires place { place < place_count traces.now }
    requires read { length read.now ≡ place_count traces.now }
    requires left { get_or read.now place 0 < length (trace_at traces.now place) }
    ensures event { IsNextAt traces.now read.now place result.now }
    ensures small { get_or read.now place 0 + 1 < 2 ^ 64 }
{
    &events_at(traces, place)[read[place]]
}
