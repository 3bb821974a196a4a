//! The endpoint of a process.
//!
//! # Why
//!
//! Servers, the master and clients share one endpoint and one invariant. An untraced run is the
//! same code with one flag: its trace is cut from the start. A cut trace and lost steps are two
//! flags, since a trace that is full, or has no memory, is cut while the process still follows its
//! table.

ghost use Rattle.std.specs.Prelude.{◌≡◌, [], true, false, length, not};
ghost use Rattle.zthreads.specs.Untraced.{RecordsNothing};
ghost use Rattle.zthreads.specs.Waiting.{NothingWaits};

use std::alloc::Global;
use zchannels::bells::Bells;
use zchannels::rings::{Rx, Tx};
use zprotocol::traces::{Stamp, Trace, TraceEvent};
use zprotocol::world::CallEvent;
use zprotocol::{Message, Out, Process, ServerId};
use zserver::Snapshot;

/// A message with the timestamp of the event that sent it.
pub type Stamped = (Stamp, Message<Snapshot>);

/// The endpoint of a process in a thread: all that it has except its view.
#[derive(Drop)]
pub struct Endpoint {
    pub(crate) alloc: Global,
    pub(crate) me: Process,
    // the last server of the initial chain, and how many clients there are
    pub(crate) last: ServerId,
    pub(crate) clients: u8,
    // by index: the channel from each process, and to each
    pub(crate) ins: Vec<Rx<Stamped>>,
    pub(crate) outs: Vec<Tx<Stamped>>,
    /// The last event's messages that aren't on their channels yet, except one that is held.
    pub out: Out<Snapshot>,
    // the first of those, if there was no memory for it
    pub(crate) held: Option<(Process, Message<Snapshot>)>,
    // whether a message may wait before a ring
    pub(crate) waits: bool,
    pub(crate) stamp: Stamp,
    // whether it has a trace and a record; if not, its trace is cut from the start
    pub(crate) is_traced: bool,
    pub(crate) trace: Vec<TraceEvent>,
    pub(crate) seen: Vec<CallEvent>,
    pub(crate) is_cut: bool,
    // whether a message of an event is on no channel, or an event has the last timestamp
    pub(crate) is_lost: bool,
    // wakes the receiver where a message goes onto a channel
    pub(crate) bells: Bells,
    ghost sides: { length ins.items ≡ length outs.items },
    ghost noticed: { waits ≡ false → NothingWaits outs.items },
    ghost kept: { is_cut ≡ false → is_lost ≡ false },
    ghost untraced: { is_traced ≡ false → RecordsNothing is_cut trace seen },
}

/// What an endpoint leaves: the process's channels, its trace, and what its caller saw.
#[derive(Drop)]
pub struct Ending {
    /// The receiving ends, by index.
    pub ins: Vec<Rx<Stamped>>,
    /// The sending ends, by index.
    pub outs: Vec<Tx<Stamped>>,
    /// What it did. It is cut if a message of it is on no channel.
    pub trace: Trace,
    /// What its caller saw.
    pub seen: Vec<CallEvent>,
    /// Whether a message of an event is on no channel, or an event has the last timestamp. Then
    /// nothing is known of the process's steps.
    pub is_lost: bool,
    ghost kept: { trace.is_cut ≡ false → is_lost ≡ false },
}

impl Endpoint {
    ghost use Rattle.zthreads.specs.Endpoints.{AreFreshIns, AreFreshOuts, IsAt, IsEndpointOf, IsSettled};
    ghost use Rattle.zthreads.specs.Endpoints.{is_cut_of, is_lost_of, is_traced_of, opening_of, seen_of};
    ghost use Rattle.zthreads.specs.Endpoints.{stamp_of_endpoint, trace_of, wires_of};
    ghost use Rattle.zthreads.specs.Endings.{IsCutAsBefore, IsLostAsBefore, KeepsAtEnd};
    ghost use Rattle.zthreads.specs.Endings.{LeavesNothing, SameWires};

    /// Returns the endpoint of a process that has done nothing, with unused channels. If it isn't
    /// traced, it has no trace and no record, and takes no memory for them.
    pub fn new(
        alloc: Global,
        me: Process,
        last: ServerId,
        clients: u8,
        ins: Vec<Rx<Stamped>>,
        outs: Vec<Tx<Stamped>>,
        bells: Bells,
        is_traced: bool,
    ) -> Endpoint
        requires sides { length ins.items ≡ length outs.items }
        requires ins { AreFreshIns ins.items }
        requires outs { AreFreshOuts outs.items }
        ensures at { IsAt result (opening_of last clients me) }
        ensures endpoint { IsEndpointOf me last clients result }
        ensures wires { wires_of result ≡ (ins.items, outs.items) }
        ensures settled { IsSettled result }
        ensures traced { is_traced_of result ≡ is_traced }
        ensures whole { is_cut_of result ≡ not is_traced }
        ensures kept { is_lost_of result ≡ false }
        ensures blank { (trace_of result ≡ []) × (seen_of result ≡ [])
            × (stamp_of_endpoint result ≡ 0) }
    {
        Endpoint {
            alloc,
            me,
            last,
            clients,
            ins,
            outs,
            out: Out::new(alloc),
            held: None,
            waits: false,
            stamp: Stamp::zero(),
            is_traced,
            trace: Vec::new(alloc),
            seen: Vec::new(alloc),
            is_cut: !is_traced,
            is_lost: false,
            bells,
        }
    }

    /// Sends the last event's messages, then returns what the endpoint leaves. So a client that
    /// ends just after a call leaves a whole trace. If there is no memory for the messages, the
    /// trace is cut, and what the process did is lost.
    pub fn into_ending(mut self) -> Ending
        ensures ended { KeepsAtEnd self result }
        ensures wires { SameWires self result }
        ensures trace { result.trace.events.items ≡ trace_of self }
        ensures seen { result.seen.items ≡ seen_of self }
        ensures cut { is_cut_of self ≡ true → result.trace.is_cut ≡ true }
        ensures lost { is_lost_of self ≡ true → result.is_lost ≡ true }
        ensures whole { IsCutAsBefore self result }
        ensures kept { IsLostAsBefore self result }
        ensures untraced { is_traced_of self ≡ false → LeavesNothing result }
    {
        // A message that finds no memory is never sent: the trace is cut.
        let _ = self.settle();
        self.leave()
    }

    // Returns what it leaves. Its trace is cut also if a message of an event is on no channel.
    fn leave(mut self) -> Ending
        ensures ended { KeepsAtEnd self result }
        ensures wires { SameWires self result }
        ensures trace { result.trace.events.items ≡ trace_of self }
        ensures seen { result.seen.items ≡ seen_of self }
        ensures cut { is_cut_of self ≡ true → result.trace.is_cut ≡ true }
        ensures lost { is_lost_of self ≡ true → result.is_lost ≡ true }
        ensures whole { IsCutAsBefore self result }
        ensures kept { IsLostAsBefore self result }
        ensures untraced { is_traced_of self ≡ false → LeavesNothing result }
    {
        let post = self.next_post();
        let waits = post.is_some();
        drop(post);
        let Endpoint {
            ins,
            outs,
            out,
            held,
            trace,
            seen,
            is_cut,
            is_lost,
            bells,
            ..
        } = self;
        drop(out);
        drop(held);
        drop(bells);
        let trace = Trace {
            events: trace,
            is_cut: is_cut | waits,
        };
        Ending {
            ins,
            outs,
            trace,
            seen,
            is_lost: is_lost | waits,
        }
    }
}
