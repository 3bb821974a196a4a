//! What the master's thread owns.

ghost use Rattle.std.specs.Prelude.{◌≡◌, IfNone, IfSome, OnSome, true, false};
ghost use Rattle.zprotocol.specs.declared.process.Process.TheVariants as process;
ghost use Rattle.zprotocol.specs.world.Does.{AtMaster};
ghost use Rattle.zprotocol.specs.declared.traces.trace.Act.TheVariants.{Ordered};
ghost use Rattle.zthreads.specs.Endpoints.{is_cut_of, is_traced_of, IsAt, process_of, SameBooks, SameEndpoint};
ghost use Rattle.zthreads.specs.Endpoints.{self_of, trace_of};
ghost use Rattle.zthreads.specs.Endings.{HasEnded, IsCutAsBefore, IsLostAsBefore};
ghost use Rattle.zthreads.specs.Endings.{LeavesNothing, SameWires};
ghost use Rattle.zthreads.specs.Hosts.{host_endpoint};
ghost use Rattle.zthreads.specs.Acts.{DidNext};
ghost use Rattle.zthreads.specs.Outcomes.{outcome_at};

use crate::host::Host;
use crate::{Ending, Endpoint};
use zactor::{ActFault, Actor, Input, Refusal};
use zchannels::outcome::OrderOutcome;
use zmaster::Master;
use zprotocol::Order;

/// The master with its endpoint. It followed the master table from its opening view, through its
/// trace if it has one.
#[derive(Drop)]
pub struct MasterThread {
    pub(crate) host: Host,
    ghost is_master: { process_of (host_endpoint host) ≡ process.Master },
}

impl MasterThread {
    ghost use Rattle.zthreads.specs.Owned.{master_endpoint, master_view};

    /// Returns the master with an endpoint that has done nothing.
    pub fn new(endpoint: Endpoint, master: Master) -> MasterThread
        requires me { process_of endpoint ≡ process.Master }
        requires at { IsAt endpoint (AtMaster master) }
        ensures same { master_endpoint result ≡ endpoint }
    {
        MasterThread {
            host: Host::new(endpoint, Actor::master(master)),
        }
    }

    /// Obeys an order of the console, or refuses it, and returns which. Returns `None` where that
    /// has to be tried again, for memory.
    pub fn follow(&mut self, order: &Order) -> Option<OrderOutcome>
        ensures idle { IfNone result
            (SameBooks (master_endpoint self.old) (master_endpoint self.new)) }
        ensures done { OnSome result
            (DidNext (master_endpoint self.old) (master_endpoint self.new) (Ordered order.now)) }
        ensures said { IfSome result (λ said.
            said ≡ outcome_at (master_view self.old) order.now) }
        ensures stood { OnSome result
            (IsAt (master_endpoint self.old) (AtMaster (master_view self.old))) }
        ensures same { SameEndpoint (master_endpoint self.old) (master_endpoint self.new) }
    {
        // A message without memory comes first.
        if self.host.has_front() {
            return None;
        }
        match self.host.give(Input::Obey(*order)) {
            Ok(done) => {
                drop(done);
                Some(OrderOutcome::Obeyed(*order))
            }
            Err(ActFault::Refused(Refusal::Order(fault))) => {
                if !self.host.refuse(order) {
                    return None;
                }
                Some(OrderOutcome::Refused(*order, fault))
            }
            Err(fault) => {
                drop(fault);
                None
            }
        }
    }

    /// Returns what it leaves, once its thread has ended.
    pub fn into_ending(self) -> Ending
        ensures ended { HasEnded (self_of (master_endpoint self)) result }
        ensures wires { SameWires (master_endpoint self) result }
        ensures trace { result.trace.events.items ≡ trace_of (master_endpoint self) }
        ensures cut { is_cut_of (master_endpoint self) ≡ true → result.trace.is_cut ≡ true }
        ensures whole { IsCutAsBefore (master_endpoint self) result }
        ensures kept { IsLostAsBefore (master_endpoint self) result }
        ensures untraced { is_traced_of (master_endpoint self) ≡ false → LeavesNothing result }
    {
        let MasterThread { host } = self;
        host.into_ending()
    }
}
