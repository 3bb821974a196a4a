//! What a server's thread owns.

ghost use Rattle.std.specs.Prelude.{◌≡◌, ◌≤◌, None, Some, true, false};
ghost use Rattle.zchannels.specs.declared.limits.TheConstants.{LAST_BIT};
ghost use Rattle.zprotocol.specs.world.Does.{AtServer};
ghost use Rattle.zthreads.specs.Endpoints.{is_cut_of, is_traced_of, IsAt, process_of, self_of, trace_of};
ghost use Rattle.zthreads.specs.Endings.{HasEnded, IsCutAsBefore, IsLostAsBefore};
ghost use Rattle.zthreads.specs.Endings.{LeavesNothing, SameWires};
ghost use Rattle.zthreads.specs.Hosts.{host_endpoint};
ghost use Rattle.zthreads.specs.Threads.{ServerProcess};
ghost use Rattle.zthreads.specs.Rounds.{bit_of};

use crate::host::Host;
use crate::{Ending, Endpoint};
use zactor::Actor;
use zprotocol::ServerId;
use zserver::Server;

/// A server with its endpoint. It followed the server table from its opening view, through its
/// trace if it has one.
#[derive(Drop)]
pub struct ServerThread {
    pub(crate) host: Host,
    pub(crate) id: ServerId,
    ghost is_server: { process_of (host_endpoint host) ≡ ServerProcess id },
}

impl ServerThread {
    ghost use Rattle.zthreads.specs.Owned.{is_over_of, server_endpoint};

    /// Returns a server with an endpoint that has done nothing.
    pub fn new(id: ServerId, endpoint: Endpoint, server: Server) -> ServerThread
        requires me { process_of endpoint ≡ ServerProcess id }
        requires at { IsAt endpoint (AtServer server.view) }
        requires runs { server.stopped ≡ None }
        ensures same { server_endpoint result ≡ endpoint }
        ensures begins { is_over_of result ≡ false }
    {
        ServerThread {
            host: Host::new(endpoint, Actor::server(server)),
            id,
        }
    }

    /// Returns the bit of a halt at which it stops: its number.
    pub(crate) fn bit(&self) -> u32
        ensures own { Some result ≡ bit_of (process_of (server_endpoint self.now)) }
        ensures small { result ≤ LAST_BIT }
    {
        self.id.number() as u32
    }

    /// Returns what it leaves, once its thread has ended.
    pub fn into_ending(self) -> Ending
        ensures ended { HasEnded (self_of (server_endpoint self)) result }
        ensures wires { SameWires (server_endpoint self) result }
        ensures trace { result.trace.events.items ≡ trace_of (server_endpoint self) }
        ensures cut { is_cut_of (server_endpoint self) ≡ true → result.trace.is_cut ≡ true }
        ensures whole { IsCutAsBefore (server_endpoint self) result }
        ensures kept { IsLostAsBefore (server_endpoint self) result }
        ensures untraced { is_traced_of (server_endpoint self) ≡ false → LeavesNothing result }
    {
        let ServerThread { host, .. } = self;
        host.into_ending()
    }
}
