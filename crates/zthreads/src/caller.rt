//! What a caller's thread owns.
//!
//! # Why
//!
//! A client's thread doesn't sleep: its calls take no handle of `Wait`, and none lasts longer than
//! its caller says. So no bell wakes it.

ghost use Rattle.std.specs.Prelude.{◌≡◌, IfErr, IfOk, OnErr, OnOk, max, true, false};
ghost use Rattle.zprotocol.specs.declared.process.Process.TheVariants.{Client};
ghost use Rattle.zprotocol.specs.world.Does.{AtClient};
ghost use Rattle.zthreads.specs.Endpoints.{is_cut_of, is_traced_of, IsAt, process_of, SameEndpoint};
ghost use Rattle.zthreads.specs.Endpoints.{seen_of, self_of, stamp_of_endpoint, trace_of};
ghost use Rattle.zthreads.specs.Endings.{HasEnded, HasEndedBy, IsCutAsBefore, IsLostAsBefore};
ghost use Rattle.zthreads.specs.Endings.{LeavesNothing, SameWires};
ghost use Rattle.zthreads.specs.Hosts.{host_endpoint};

use crate::asking::{begin_fault_of, number_of};
use crate::gate::Open;
use crate::hearing::next_link;
use crate::host::Host;
use crate::{Ending, Endpoint};
use zactor::{Actor, Handed, Input};
use zalloc::Memory;
use zcalls::{Call, CallNumber, ClientId, Reply};
use zclient::{BeginFault, ClientCore};
use zprotocol::ServerId;
use zprotocol::traces::Stamp;

/// A client with its endpoint. It followed the client table from its opening view, through its
/// trace if it has one.
#[derive(Drop)]
pub struct Caller {
    pub(crate) host: Host,
    pub(crate) id: ClientId,
    // the link that it received from last
    pub(crate) link: usize,
    ghost is_client: { process_of (host_endpoint host) ≡ Client id },
}

impl Caller {
    ghost use Rattle.zthreads.specs.Callers.{Began, IsUncut, IsUnlost, Retried, SameCaller, Turned};
    ghost use Rattle.zthreads.specs.Callers.{caller_endpoint, caller_id, caller_stamp, caller_view};
    ghost use Rattle.zthreads.specs.Callers.{AccountsForCaller, learnt_of, MayRefuse, SameLearnt};

    /// Returns the client with an endpoint that has done nothing.
    pub fn new(id: ClientId, endpoint: Endpoint, core: ClientCore) -> Caller
        requires me { process_of endpoint ≡ Client id }
        requires at { IsAt endpoint (AtClient core) }
        ensures endpoint { caller_endpoint result ≡ endpoint }
        ensures view { caller_view result ≡ core }
        ensures stamp { caller_stamp result ≡ max (stamp_of_endpoint endpoint) 0 }
    {
        Caller {
            host: Host::new(endpoint, Actor::client(core)),
            id,
            link: 0,
        }
    }

    /// Returns its number.
    pub fn id(&self) -> ClientId
        ensures { result ≡ caller_id self.now }
    {
        let Caller { id, .. } = self;
        *id
    }

    /// Returns the head of the chain, by the master's last message to it.
    pub fn head(&self) -> Option<ServerId>
        ensures { result ≡ (caller_view self.now).head }
    {
        self.core().head()
    }

    /// Returns the tail of the chain, by the master's last message to it.
    pub fn tail(&self) -> Option<ServerId>
        ensures { result ≡ (caller_view self.now).tail }
    {
        self.core().tail()
    }

    /// Returns the last timestamp of its events, or a later one that it learned.
    pub fn stamp(&self) -> Stamp
        ensures { result ≡ caller_stamp self.now }
    {
        self.host.stamp()
    }

    /// From now on its events have later timestamps than this one, through all later calls.
    pub fn learn(&mut self, stamp: Stamp)
        ensures stamp { caller_stamp self.new ≡ max (caller_stamp self.old) stamp }
        ensures learnt { learnt_of self.new ≡ max (learnt_of self.old) stamp }
        ensures same { SameCaller self.old self.new }
        ensures endpoint { caller_endpoint self.new ≡ caller_endpoint self.old }
    {
        self.host.learn(stamp);
    }

    /// Invokes a call, and returns its number. Returns `Busy` where a call is outstanding,
    /// `Exhausted` where no numbers are left, and `Memory` out of memory: then nothing is invoked.
    #[tactic(auto, unfolding(zprotocol::specs::client::Table::begin_fault))]
    pub fn begin(&mut self, call: Call) -> Result<CallNumber, BeginFault>
        ensures same { SameEndpoint (caller_endpoint self.old) (caller_endpoint self.new) }
        ensures began { IfOk result (Began self.old self.new call) }
        ensures fault { IfErr result (MayRefuse (caller_view self.old)) }
        ensures refused { OnErr result (SameCaller self.old self.new) }
        ensures whole { OnOk result (IsUncut self.old self.new) }
        ensures unlost { OnOk result (IsUnlost self.old self.new) }
        ensures learnt { SameLearnt self.old self.new }
    {
        if self.core().outstanding().is_some() {
            drop(call);
            return Err(BeginFault::Busy);
        }
        if !self.host.reserve() {
            drop(call);
            return Err(BeginFault::Memory);
        }
        match self.host.give(Input::Begin(call)) {
            Ok(done) => Ok(number_of(done)),
            Err(fault) => Err(begin_fault_of(fault)),
        }
    }

    /// Sends the outstanding call once more. Returns false where there is none.
    pub fn retry(&mut self) -> Result<bool, Memory>
        ensures same { SameEndpoint (caller_endpoint self.old) (caller_endpoint self.new) }
        ensures retried { IfOk result (Retried self.old self.new) }
        ensures refused { OnErr result (SameCaller self.old self.new) }
        ensures whole { OnOk result (IsUncut self.old self.new) }
        ensures unlost { OnOk result (IsUnlost self.old self.new) }
        ensures learnt { SameLearnt self.old self.new }
    {
        if self.core().outstanding().is_none() {
            return Ok(false);
        }
        if !self.host.reserve() {
            return Err(Memory);
        }
        match self.host.give(Input::Retry) {
            Ok(done) => {
                drop(done);
                Ok(true)
            }
            Err(fault) => {
                drop(fault);
                Err(Memory)
            }
        }
    }

    /// Moves what waits into the rings and receives at most one message. Returns the reply of the
    /// outstanding call, if the message brings it. A message for which there is no memory counts as
    /// still in its ring, and comes first at the next `turn`.
    pub fn turn(&mut self) -> Option<Reply>
        ensures same { SameEndpoint (caller_endpoint self.old) (caller_endpoint self.new) }
        ensures turned { Turned self.old self.new result }
        ensures whole { IsUncut self.old self.new }
        ensures unlost { IsUnlost self.old self.new }
        ensures learnt { SameLearnt self.old self.new }
    {
        self.host.flush();
        if !self.host.reserve() {
            return None;
        }
        self.link = next_link(&mut self.host, self.link);
        let mut handed = Handed::Nothing;
        let Some(done) = self.host.turn(self.link, &mut Open, &mut handed) else {
            drop(handed);
            return None;
        };
        drop(done);
        let reply = handed.take_reply();
        drop(handed);
        reply
    }

    /// Returns what it leaves, with its number.
    pub fn into_ending(self) -> (ClientId, Ending)
        ensures id { result.0 ≡ caller_id self }
        ensures ended { HasEnded (self_of (caller_endpoint self)) result.1 }
        ensures steps { HasEndedBy (self_of (caller_endpoint self)) result.1
            (AccountsForCaller self) }
        ensures wires { SameWires (caller_endpoint self) result.1 }
        ensures trace { result.1.trace.events.items ≡ trace_of (caller_endpoint self) }
        ensures seen { result.1.seen.items ≡ seen_of (caller_endpoint self) }
        ensures cut { is_cut_of (caller_endpoint self) ≡ true → result.1.trace.is_cut ≡ true }
        ensures whole { IsCutAsBefore (caller_endpoint self) result.1 }
        ensures kept { IsLostAsBefore (caller_endpoint self) result.1 }
        ensures untraced { is_traced_of (caller_endpoint self) ≡ false → LeavesNothing result.1 }
    {
        let Caller { host, id, .. } = self;
        (id, host.into_ending())
    }

    // Returns what the client knows.
    fn core(&self) -> &ClientCore
        ensures { result.now ≡ caller_view self.now }
    {
        let Some(core) = self.host.actor.as_client() else {
            // It is the process of a client.
            unreachable!();
        };
        core
    }
}
