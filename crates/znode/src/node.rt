//! A node.

ghost use Rattle.std.specs.Prelude.{◌≡◌, ◌≢◌, ◌⊎◌, ◌++◌, ℕ, IfOk, IfErr, IsTrue, IsFalse, OnOk};
ghost use Rattle.std.specs.Prelude.{List};
ghost use Rattle.zprotocol.specs.declared.process.Process.{Process};
ghost use Rattle.zprotocol.specs.server.View.{spare};
ghost use Rattle.zprotocol.specs.world.Does.{AtServer};
ghost use Rattle.zprotocol.specs.declared.process.Process.TheVariants.{Server as OfServer};
ghost use Rattle.zprotocol.specs.declared.process.Process.TheVariants.{Client as OfClient};
ghost use Rattle.zpeers.specs.declared.fault.PeerFault.TheVariants.{Memory as OfMemory};
ghost use Rattle.zpeers.specs.Incoming.{OthersArrive, arriving_from};
ghost use Rattle.zpeers.specs.Outgoing.{waiting_for};
ghost use Rattle.znode.specs.Node.{has_ended, status_of, IsNew};
ghost use Rattle.znode.specs.support.Faults.{IsLinkFault};
ghost use Rattle.znode.specs.Steps.{Takes, Comes, IsNodeFault, Receives, Loses, Forgets, accusing};
ghost use Rattle.znode.specs.Steps.{may_accuse};
ghost use Rattle.znode.specs.pipe.Inputs.{InputView, input_of};
ghost use Rattle.znode.specs.pipe.Inputs.InputView.{Link, Lost, Ended};
ghost use Rattle.znode.specs.pipe.Outputs.{OutputView};
ghost use Rattle.znode.specs.pipe.Serving.{outputs_text};

use crate::fault::NodeFault;
use crate::pipe::NodeInput;
use crate::seat::Seat;
use crate::status::NodeStatus;
use std::alloc::Global;
use std::marker::Model;
use zalloc::Memory;
use zmaster_log::{MasterReplica, NodeName};
use zpeers::{Incoming, PeerFault};
use zprotocol::{Message, Process, ServerId};
use zserver::Snapshot;

/// A node: its replica of the master, and its server.
#[derive(Drop)]
pub struct Node {
    pub(crate) alloc: Global,
    pub(crate) name: NodeName,
    // Whether it may open an empty log.
    pub(crate) opens: bool,
    // Whether it has read all of the log that there was.
    pub(crate) is_at_end: bool,
    // The bytes that it has asked to be appended as the next entry.
    pub(crate) asked: Option<Vec<u8>>,
    pub(crate) replica: MasterReplica,
    pub(crate) incoming: Incoming,
    pub(crate) seat: Seat,
    // The status that the host knows.
    pub(crate) known: Option<NodeStatus>,
}

impl Model for Node {
    ghost use Rattle.std.specs.Option.{option_map};
    ghost use Rattle.znode.specs.Node.{NodeView};
    ghost use Rattle.znode.specs.support.Codes.{coded_node};

    ghost Value = { NodeView };

    ghost coded = { coded_node };

    ghost view = { λ n. record {
      name = n.name;
      opens = n.opens;
      is_at_end = n.is_at_end;
      asked = option_map (λ bytes. bytes.items) n.asked;
      replica = n.replica;
      incoming = n.incoming;
      seat = n.seat;
      known = n.known;
    } };
}

impl Node {
    /// Returns a node that has read nothing. `opens`: it may open an empty log.
    pub fn new(alloc: Global, name: NodeName, opens: bool) -> Result<Node, Memory>
        ensures { IfOk result (IsNew name opens) }
    {
        Ok(Node {
            alloc,
            name,
            opens,
            is_at_end: false,
            asked: None,
            replica: MasterReplica::new(),
            incoming: Incoming::new(alloc)?,
            seat: Seat::new(alloc)?,
            known: None,
        })
    }

    /// Takes an input. What the host is to do goes to `out`, and only at a `Turn`. A node that
    /// fails takes no further input.
    pub fn take(&mut self, input: &NodeInput<'_>, out: &mut Vec<u8>) -> Result<(), NodeFault>
        ensures taken { OnOk result ((outputs : List OutputView)
            × Takes self.old (input_of input.now) outputs self.new
            × (out.new.items ≡ out.old.items ++ outputs_text outputs)) }
        ensures fault { IfErr result (IsNodeFault self.old (input_of input.now)) }
    {
        match input {
            NodeInput::Entry(index, bytes) => self.play(*index, bytes),
            NodeInput::CaughtUp => {
                self.is_at_end = true;
                Ok(())
            }
            NodeInput::Link(from, tag, bytes) => self.receive(*from, *tag, bytes),
            NodeInput::Lost(server) => self.lose(*server),
            NodeInput::Turn => self.answer(out),
            NodeInput::Ended(from) => {
                self.incoming.forget(*from);
                Ok(())
            }
        }
    }

    /// Returns whether its server is gone, by the log. Then the node has ended.
    pub fn has_ended(&self) -> bool
        ensures { result ≡ has_ended self.now }
    {
        match self.replica.own() {
            Some(own) => !self.replica.is_live(own),
            None => false,
        }
    }

    /// Returns its status.
    pub fn status(&self) -> NodeStatus
        ensures { result ≡ status_of self.now }
    {
        let own = self.replica.own();
        NodeStatus {
            own,
            is_live: own.is_some() && !self.has_ended(),
            has_state: self.seat.has_state(),
        }
    }

    // Takes a record of a link. The server handles the message that is whole by it, if one is.
    fn receive(&mut self, from: Process, tag: u8, bytes: &[u8]) -> Result<(), NodeFault>
        ensures taken { OnOk result (Receives self.old from
            (record { tag = tag; bytes = bytes.now }) self.new) }
        ensures fault { IfErr result (IsNodeFault self.old
            (Link from (record { tag = tag; bytes = bytes.now }))) }
    {
        let Some(own) = self.replica.own() else {
            return Err(NodeFault::NoServer);
        };
        if is_master(&from) {
            return Err(NodeFault::Master);
        }
        let came = record_came(&mut self.incoming, own, from, tag, bytes)?;
        let Some(message) = came else {
            return Ok(());
        };
        self.seat.hear(self.alloc, own, from, message)?;
        Ok(())
    }

    // Drops what waits for a server whose link is lost, and reports that it is gone, if the node
    // may do so.
    fn lose(&mut self, server: ServerId) -> Result<(), NodeFault>
        ensures taken { OnOk result (Loses self.old server self.new) }
        ensures fault { IfErr result (IsNodeFault self.old (Lost server)) }
    {
        let accuses = self.may_accuse(server);
        self.seat.forget(server);
        if !accuses {
            return Ok(());
        }
        self.seat.accuse(server)?;
        Ok(())
    }

    // Returns whether the node is to report that the server is gone: its own server is live and has
    // the state, the other one is live, and it isn't reported yet.
    fn may_accuse(&self, server: ServerId) -> bool
        ensures { result ≡ may_accuse self.now server }
    {
        self.replica.own().is_some()
            && !self.has_ended()
            && self.seat.has_state()
            && self.replica.is_live(server)
            && !self.seat.reports().accuse(server)
    }
}

// Takes a record of a link, and returns the message that is whole by it, if one is. A record of a
// client that is refused is dropped, and what was loaded of the client.
fn record_came(
    incoming: &mut Incoming,
    own: ServerId,
    from: Process,
    tag: u8,
    bytes: &[u8],
) -> Result<Option<Message<Snapshot>>, PeerFault>
    requires { from ≢ Process.Master }
    ensures comes { IfOk result (Comes own from (record { tag = tag; bytes = bytes.now })
        (arriving_from incoming.old from) (arriving_from incoming.new from)) }
    ensures others { OthersArrive incoming.old incoming.new from }
    ensures fault { IfErr result (IsLinkFault own from
        (record { tag = tag; bytes = bytes.now }) (arriving_from incoming.old from)) }
{
    match incoming.take(Process::Server(own), from, tag, bytes) {
        Ok(came) => Ok(came),
        Err(fault) => {
            if ends_node(&from, fault) {
                return Err(fault);
            }
            incoming.forget(from);
            Ok(None)
        }
    }
}

// Returns whether a fault of a record of this process ends the node. That of a client doesn't, but
// for memory.
fn ends_node(from: &Process, fault: PeerFault) -> bool
    ensures yes { IsTrue result → from.now ≢ Process.Master
        → (fault ≡ OfMemory) ⊎ ((s : ℕ) × (from.now ≡ OfServer s)) }
    ensures no { IsFalse result → (fault ≢ OfMemory) × ((c : ℕ) × (from.now ≡ OfClient c)) }
{
    match fault {
        PeerFault::Memory => true,
        _ => match from {
            Process::Client(_) => false,
            Process::Master | Process::Server(_) => true,
        },
    }
}

// Returns whether the process is the master.
fn is_master(process: &Process) -> bool
    ensures yes { IsTrue result → process.now ≡ Process.Master }
    ensures no { IsFalse result → process.now ≢ Process.Master }
{
    match process {
        Process::Master => true,
        Process::Server(_) | Process::Client(_) => false,
    }
}
