//! A process with its endpoint.
//!
//! # Why
//!
//! All messages of an event are sent before the next message is received, so a server that is held
//! at a message doesn't hold back what it has forwarded. A message that the process had no memory
//! for remains in the host, since a ring can't show a message without removing it.

ghost use Rattle.std.specs.Prelude.{◌≡◌, ◌<◌, IfErr, IfNone, IfOk, IfSome, IsFalse, IsTrue};
ghost use Rattle.std.specs.Prelude.{false, is_some, max, None, true};
ghost use Rattle.zprotocol.specs.traces.Deeds.{refuses};
ghost use Rattle.zactor.specs.Acting.{has_stopped, message_of};
ghost use Rattle.zthreads.specs.Endpoints.{HasRoom, is_cut_of, is_traced_of, IsAt, link_count};
ghost use Rattle.zthreads.specs.Endpoints.{process_of, SameEndpoint, seen_of, self_of, trace_of, wires_of};
ghost use Rattle.zthreads.specs.Endings.{HasEnded, HasEndedBy, IsCutAsBefore, IsLostAsBefore};
ghost use Rattle.zthreads.specs.Endings.{LeavesNothing, SameWires};
ghost use Rattle.zthreads.specs.Hosting.{Fits, IsHosted};
ghost use Rattle.zthreads.specs.Waiting.{SeesNothing, SeesSome};

use crate::acting::{act, hear};
use crate::gate::Gate;
use crate::hearing::front_of;
use crate::{Ending, Endpoint, Stamped};
use zactor::{ActFault, Actor, Done, Handed, Input};
use zprotocol::traces::{Act, Stamp};
use zprotocol::{Order, Process};

/// A process with its endpoint, whichever kind it is. It followed its definition from the initial
/// state, through its trace if it has one.
#[derive(Drop)]
pub struct Host {
    pub(crate) endpoint: Endpoint,
    pub(crate) actor: Actor,
    // the last timestamp that it learned from its caller, as only a client does
    pub(crate) learnt: Stamp,
    // a message that was received, and counts as still in its ring: no memory was found for it
    pub(crate) front: Option<(Process, Stamped)>,
    ghost hosted: { IsHosted endpoint actor learnt front },
}

impl Host {
    ghost use Rattle.zthreads.specs.Hosts.{DidIdle, Gave, GaveUp, host_endpoint, host_front, host_learnt};
    ghost use Rattle.zthreads.specs.Hosts.{host_stamp, host_standing, IsClientHost, Received};
    ghost use Rattle.zthreads.specs.Hosts.{AccountsForHost, RefusesOrder};

    /// Returns a process with an endpoint that has done nothing.
    pub fn new(endpoint: Endpoint, actor: Actor) -> Host
        requires fits { Fits endpoint actor }
        requires at { IsAt endpoint actor }
        ensures endpoint { host_endpoint result ≡ endpoint }
        ensures standing { host_standing result ≡ actor }
        ensures learnt { host_learnt result ≡ 0 }
    {
        Host {
            endpoint,
            actor,
            learnt: Stamp::zero(),
            front: None,
        }
    }

    /// Returns how many links it receives from.
    pub fn links(&self) -> usize
        ensures { result ≡ link_count (host_endpoint self.now) }
    {
        self.endpoint.links()
    }

    /// Returns whether it has stopped, which is final.
    pub fn has_stopped(&self) -> bool
        ensures { result ≡ has_stopped (host_standing self.now) }
    {
        self.actor.has_stopped()
    }

    /// Returns whether a message that it received counts as still in its ring. The next `turn`
    /// begins with that one.
    pub fn has_front(&self) -> bool
        ensures { result ≡ is_some (host_front self.now) }
    {
        self.front.is_some()
    }

    /// Returns the last timestamp of its events, or a later one that it learned.
    pub fn stamp(&self) -> Stamp
        ensures { result ≡ host_stamp self.now }
    {
        self.endpoint.stamp().later(self.learnt)
    }

    /// From now on the events of a client come after this timestamp.
    pub fn learn(&mut self, stamp: Stamp)
        requires { IsClientHost self.old }
        ensures learnt { host_learnt self.new ≡ max (host_learnt self.old) stamp }
        ensures endpoint { host_endpoint self.new ≡ host_endpoint self.old }
        ensures standing { host_standing self.new ≡ host_standing self.old }
    {
        self.learnt = self.learnt.later(stamp);
    }

    /// Sends what the last event sent, and moves what waits into the rings. So nothing waits for
    /// the next message.
    pub fn flush(&mut self)
        ensures idle { DidIdle self.old self.new }
        ensures same { SameEndpoint (host_endpoint self.old) (host_endpoint self.new) }
    {
        // A message without memory is tried again the next time.
        let _ = self.endpoint.settle();
        self.endpoint.flush();
    }

    /// Returns whether it finds no message in the ring of a link.
    pub fn is_empty(&mut self, link: usize) -> bool
        requires { link < link_count (host_endpoint self.old) }
        ensures none { IsTrue result → SeesNothing link (wires_of (host_endpoint self.new)).0 }
        ensures some { IsFalse result → SeesSome link (wires_of (host_endpoint self.new)).0 }
        ensures idle { DidIdle self.old self.new }
        ensures same { SameEndpoint (host_endpoint self.old) (host_endpoint self.new) }
    {
        self.endpoint.is_empty(link)
    }

    /// Returns whether a `turn` at this link finds nothing to receive.
    pub fn finds_nothing(&mut self, link: usize) -> bool
        requires { link < link_count (host_endpoint self.old) }
        ensures idle { DidIdle self.old self.new }
        ensures same { SameEndpoint (host_endpoint self.old) (host_endpoint self.new) }
    {
        if self.has_front() {
            return false;
        }
        self.is_empty(link)
    }

    /// Reserves room for one event in trace and record, if it has them. Returns false if there is
    /// no memory for it.
    pub fn reserve(&mut self) -> bool
        ensures room { IsTrue result → HasRoom (host_endpoint self.new) }
        ensures idle { DidIdle self.old self.new }
        ensures same { SameEndpoint (host_endpoint self.old) (host_endpoint self.new) }
    {
        self.endpoint.reserve()
    }

    /// Receives one message of a link and acts on it, once all is sent that the last event sent.
    /// Returns what became of it, or `None` where nothing was received, as by a process that has
    /// stopped. A message for which there is no memory counts as still in its ring, and comes first
    /// at the next `turn`, whatever the link. A client's reply is written to `handed`.
    pub fn turn<G: Gate>(&mut self, link: usize, gate: &mut G, handed: &mut Handed) -> Option<Done>
        ensures idle { IfNone result (DidIdle self.old self.new) }
        ensures received { IfSome result (Received self.old self.new handed.old handed.new) }
        ensures same { SameEndpoint (host_endpoint self.old) (host_endpoint self.new) }
    {
        if self.actor.has_stopped() {
            return None;
        }
        if !self.endpoint.settle() {
            return None;
        }
        let Some((from, stamped)) = front_of(&mut self.endpoint, &mut self.front, link) else {
            return None;
        };
        let (stamp, message) = stamped;
        gate.pass(&from, &message);
        let next = self.endpoint.next_stamp(self.learnt.later(stamp));
        hear(
            &mut self.endpoint,
            &mut self.actor,
            &mut self.front,
            from,
            stamp,
            message,
            next,
            handed,
        )
    }

    /// Gives the process an input from outside, once all is sent that the last event sent.
    pub fn give(&mut self, input: Input) -> Result<Done, ActFault>
        requires { message_of input ≡ None }
        ensures gave { IfOk result (Gave self.old self.new input) }
        ensures undone { IfErr result (GaveUp self.old self.new input) }
        ensures same { SameEndpoint (host_endpoint self.old) (host_endpoint self.new) }
    {
        if !self.endpoint.settle() {
            drop(input);
            return Err(ActFault::Memory);
        }
        let next = self.endpoint.next_stamp(self.learnt);
        let mut handed = Handed::Nothing;
        let done = act(
            &mut self.endpoint,
            &mut self.actor,
            input,
            Stamp::zero(),
            next,
            &mut handed,
        );
        drop(handed);
        done
    }

    /// The master refuses an order, which is an event of its trace. Returns false where a message
    /// of the last event waits for memory.
    pub fn refuse(&mut self, order: &Order) -> bool
        requires { refuses (process_of (host_endpoint self.old)) (host_standing self.old) order.now
            ≡ true }
        ensures idle { IsFalse result → DidIdle self.old self.new }
        ensures refused { IsTrue result → RefusesOrder self.old self.new order.now }
        ensures same { SameEndpoint (host_endpoint self.old) (host_endpoint self.new) }
    {
        if !self.endpoint.settle() {
            return false;
        }
        let stamp = self.endpoint.next_stamp(self.learnt);
        self.endpoint.enter(Act::Ordered(*order), stamp, None);
        true
    }

    /// Returns what it leaves, once it does nothing more.
    pub fn into_ending(self) -> Ending
        ensures ended { HasEnded (self_of (host_endpoint self)) result }
        ensures steps { HasEndedBy (self_of (host_endpoint self)) result (AccountsForHost self) }
        ensures wires { SameWires (host_endpoint self) result }
        ensures trace { result.trace.events.items ≡ trace_of (host_endpoint self) }
        ensures seen { result.seen.items ≡ seen_of (host_endpoint self) }
        ensures cut { is_cut_of (host_endpoint self) ≡ true → result.trace.is_cut ≡ true }
        ensures whole { IsCutAsBefore (host_endpoint self) result }
        ensures kept { IsLostAsBefore (host_endpoint self) result }
        ensures untraced { is_traced_of (host_endpoint self) ≡ false → LeavesNothing result }
    {
        let Host {
            endpoint,
            actor,
            front,
            ..
        } = self;
        drop(actor);
        drop(front);
        endpoint.into_ending()
    }
}
