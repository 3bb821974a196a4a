//! A cluster, and how its threads are joined.
//!
//! # Why
//!
//! What a cluster was started with is a `Snapshot`, which takes no room, and each thread promises
//! to return those ends. So the join knows the two ends of each channel. It asks nothing of the
//! console: no trace depends on that channel.

ghost use Rattle.std.specs.Prelude.{◌≡◌, false, IfOk, length};
ghost use Rattle.zprotocol.specs.declared.limits.TheConstants.{MAX_SERVERS};
ghost use Rattle.zprotocol.specs.traces.Audit.{is_any_cut};
ghost use Rattle.zprotocol.specs.traces.Lawful.{AreLawful};
ghost use Rattle.zrun.specs.Left.{by_place};
ghost use Rattle.zrun.specs.Handles.{given_endpoints};
ghost use Rattle.zrun.specs.Openings.{IsRunFrom};

use crate::clients::Clients;
use crate::gathering::gather;
use crate::joining::{end_clients, join_servers};
use crate::opening::Opening;
use crate::posts::ClientPost;
use crate::promises::{SameMaster, SameServer};
use crate::supply::HaltPost;
use std::alloc::Global;
use std::snapshot::Snapshot;
use std::thread::{PromisedHandle, Threads};
use zalloc::Memory;
use zchannels::console::{Console, Inbox};
use zprotocol::traces::Traces;
use zprotocol::{MAX_SERVERS, ServerId};
use zthreads::{Ending, MasterThread, ServerThread};

/// The threads of a run.
#[derive(Drop)]
pub struct Cluster {
    pub(crate) opening: Opening,
    pub(crate) halt: HaltPost,
    pub(crate) master: PromisedHandle<(MasterThread, Inbox), SameMaster>,
    pub(crate) servers: Vec<PromisedHandle<ServerThread, SameServer>>,
    // its clients as they were made
    pub(crate) run: Snapshot<Vec<ClientPost>>,
    ghost all: { length servers.items ≡ MAX_SERVERS },
    ghost count: { length run.value.items ≡ opening.clients },
    ghost wired: { IsRunFrom opening (given_endpoints master servers.items run.value.items) },
}

impl Cluster {
    ghost use Rattle.zrun.specs.Clients.{IsLeftIn};
    ghost use Rattle.zrun.specs.Clusters.{client_count, cluster_endpoints, cluster_run, last_server};
    ghost use Rattle.zrun.specs.Members.{AreReported, clients_run, places_of};
    ghost use Rattle.zrun.specs.Runs.{AreLeftBy, Pairs};

    /// Ends all threads, and returns the traces of all processes. They are lawful, unless one is
    /// cut. The trace of a client that isn't among `clients` is cut.
    ///
    /// The only error is out of memory. Then too all threads have ended.
    pub fn join<R: Threads>(
        self,
        rt: &R,
        alloc: Global,
        console: Console,
        clients: Clients,
    ) -> Result<Traces, Memory>
        requires own { clients_run clients ≡ cluster_run self }
        ensures last { IfOk result (λ traces. traces.last ≡ last_server self) }
        ensures clients { IfOk result (λ traces. length traces.clients.items ≡ client_count self) }
        ensures servers { IfOk result (λ traces. length traces.servers.items ≡ MAX_SERVERS) }
        ensures lawful { IfOk result (λ traces.
            is_any_cut traces ≡ false → ∥ AreLawful traces ∥₁) }
        ensures reported { IfOk result (λ traces. AreReported (client_count self) traces clients) }
    {
        let last = self.last();
        let (master, servers, clients) = self.leave(rt, alloc, console, clients)?;
        gather(alloc, last, master, servers, clients)
    }

    // Returns the last server of its initial chain.
    fn last(&self) -> ServerId
        ensures { result ≡ last_server self.now }
    {
        let Cluster { opening, .. } = self;
        opening.last
    }

    /// Ends all threads, and returns what the processes left: the master, the servers by number,
    /// and the clients by number.
    pub(crate) fn leave<R: Threads>(
        self,
        rt: &R,
        alloc: Global,
        console: Console,
        clients: Clients,
    ) -> Result<(Ending, Vec<Ending>, Vec<Ending>), Memory>
        requires own { clients_run clients ≡ cluster_run self }
        ensures servers { IfOk result (λ left. length left.1.items ≡ MAX_SERVERS) }
        ensures left { IfOk result (λ left.
            AreLeftBy (cluster_endpoints self) (by_place left.0 left.1.items left.2.items)) }
        ensures kept { IfOk result (λ left. Pairs IsLeftIn (places_of clients) left.2.items) }
    {
        let Cluster {
            mut halt,
            master,
            servers,
            ..
        } = self;
        drop(console);
        let Ok(room) = Vec::with_capacity(alloc, MAX_SERVERS as usize) else {
            end_all(rt, halt, master, servers);
            drop(clients);
            return Err(Memory);
        };
        halt.end();
        drop(halt);
        let (chief, inbox) = master.join(rt);
        drop(inbox);
        let servers = join_servers(rt, servers, room);
        let Ok(clients) = end_clients(alloc, clients) else {
            drop((chief, servers));
            return Err(Memory);
        };
        Ok((chief.into_ending(), servers, clients))
    }
}

/// Ends a run's threads, and drops what they return.
pub(crate) fn end_all<R: Threads>(
    rt: &R,
    mut halt: HaltPost,
    master: PromisedHandle<(MasterThread, Inbox), SameMaster>,
    servers: Vec<PromisedHandle<ServerThread, SameServer>>,
) {
    halt.end();
    drop(master.join(rt));
    for server in servers {
        drop(server.join(rt));
    }
}
