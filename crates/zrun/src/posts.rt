//! What a run's threads and clients own, before any thread is started.

ghost use Rattle.std.specs.Prelude.{◌≡◌, ◌≤◌, ◌+◌, IfOk, OnOk, length};
ghost use Rattle.zprotocol.specs.declared.limits.TheConstants.{MAX_SERVERS};
ghost use Rattle.zrun.specs.Supplies.{HandsOut, left};
ghost use Rattle.zrun.specs.Origins.{client_endpoints};
ghost use Rattle.zrun.specs.Members.{clients_run, HasAll};
ghost use Rattle.zrun.specs.Posts.{endpoints_in, post_endpoints, run_in};
ghost use Rattle.zrun.specs.Runs.{AreTraced};
ghost use Rattle.zrun.specs.Openings.{AreClientEndpoints, AreServerEndpoints, IsRunFrom};

use crate::clients::Clients;
use crate::opening::Opening;
use crate::supply::{HaltPost, Supply};
use std::alloc::Global;
use std::snapshot::Snapshot;
use std::time::Duration;
use zalloc::Memory;
use zcalls::ClientId;
use zchannels::bells::Bells;
use zchannels::console::{Console, Inbox};
use zprotocol::{MAX_SERVERS, ServerId};
use zthreads::{Caller, MasterThread, ServerThread};

/// What a server's thread is started with.
#[derive(Drop)]
pub(crate) struct ServerPost {
    pub(crate) member: ServerThread,
    pub(crate) halt: HaltPost,
}

/// What the master's thread is started with.
#[derive(Drop)]
pub(crate) struct MasterPost {
    pub(crate) chief: MasterThread,
    pub(crate) inbox: Inbox,
    pub(crate) halt: HaltPost,
}

/// What a client is made of.
#[derive(Drop)]
pub(crate) struct ClientPost {
    pub(crate) caller: Caller,
    pub(crate) halt: HaltPost,
}

/// What all threads and clients of a run own.
#[derive(Drop)]
pub(crate) struct Posts {
    pub(crate) master: MasterPost,
    /// Those of the servers by number, the last one first.
    pub(crate) servers: Vec<ServerPost>,
    pub(crate) clients: Clients,
    /// What the clients were made of.
    pub(crate) run: Snapshot<Vec<ClientPost>>,
    pub(crate) console: Console,
    /// The seat of the thread that ends the run.
    pub(crate) halt: HaltPost,
}

/// Returns all that a run needs. The only error is out of memory.
pub(crate) fn prepare(alloc: Global, opening: &Opening, longest: Duration) -> Result<Posts, Memory>
    ensures servers { IfOk result (λ posts. length posts.servers.items ≡ MAX_SERVERS) }
    ensures count { IfOk result (λ posts. length (run_in posts) ≡ opening.now.clients) }
    ensures own { IfOk result (λ posts. clients_run posts.clients ≡ run_in posts) }
    ensures all { IfOk result (λ posts. HasAll opening.now.clients posts.clients) }
    ensures run { IfOk result (λ posts. IsRunFrom opening.now (endpoints_in posts)) }
{
    let count = 1 + MAX_SERVERS as usize + opening.clients as usize;
    let bells = Bells::new(alloc, 1 + MAX_SERVERS as usize, longest)?;
    let mut supply = Supply::new(alloc, count, bells)?;
    let Ok(callers) = prepare_clients(alloc, opening, &mut supply) else {
        drop(supply);
        return Err(Memory);
    };
    let Ok(servers) = prepare_servers(alloc, opening, &mut supply) else {
        drop((supply, callers));
        return Err(Memory);
    };
    let Ok((ends, halt)) = supply.next() else {
        drop((supply, callers, servers));
        return Err(Memory);
    };
    let Ok((console, inbox)) = supply.console(alloc) else {
        drop((supply, callers, servers, ends, halt));
        return Err(Memory);
    };
    let chief = opening.master(alloc, ends);
    let run = Snapshot::of(&callers);
    let Ok(clients) = Clients::new(alloc, callers) else {
        drop((supply, servers, chief, inbox, console, halt, run));
        return Err(Memory);
    };
    Ok(Posts {
        master: MasterPost { chief, inbox, halt },
        servers,
        clients,
        run,
        console,
        halt: supply.into_last(),
    })
}

// Returns what the clients are made of. They have the last indices.
fn prepare_clients(
    alloc: Global,
    opening: &Opening,
    supply: &mut Supply,
) -> Result<Vec<ClientPost>, Memory>
    requires { opening.now.clients ≤ left supply.old }
    ensures clients { IfOk result (λ posts. length posts.items ≡ opening.now.clients) }
    ensures left { OnOk result (left supply.new + opening.now.clients ≡ left supply.old) }
    ensures endpoints { IfOk result (λ posts.
        AreClientEndpoints opening.now (client_endpoints posts.items)) }
    ensures traced { IfOk result (λ posts.
        AreTraced opening.now.is_traced (client_endpoints posts.items)) }
    ensures rings { IfOk result (λ posts.
        HandsOut supply.old supply.new (client_endpoints posts.items)) }
{
    let mut clients = Vec::with_capacity(alloc, opening.clients as usize)?;
    for done in 0..opening.clients {
        let Some(id) = ClientId::new(opening.clients - 1 - done) else {
            unreachable!()
        };
        let (ends, halt) = supply.next()?;
        let caller = opening.caller(alloc, id, ends);
        clients.push(ClientPost { caller, halt })?;
    }
    clients.reverse();
    Ok(clients)
}

// Returns the servers, the last one first. Their indices are before the clients'.
fn prepare_servers(
    alloc: Global,
    opening: &Opening,
    supply: &mut Supply,
) -> Result<Vec<ServerPost>, Memory>
    requires { MAX_SERVERS ≤ left supply.old }
    ensures servers { IfOk result (λ posts. length posts.items ≡ MAX_SERVERS) }
    ensures left { OnOk result (left supply.new + MAX_SERVERS ≡ left supply.old) }
    ensures endpoints { IfOk result (λ posts. AreServerEndpoints opening.now (post_endpoints
        posts.items)) }
    ensures traced { IfOk result (λ posts.
        AreTraced opening.now.is_traced (post_endpoints posts.items)) }
    ensures rings { IfOk result (λ posts.
        HandsOut supply.old supply.new (post_endpoints posts.items)) }
{
    let mut servers = Vec::with_capacity(alloc, MAX_SERVERS as usize)?;
    for done in 0..MAX_SERVERS {
        let Some(id) = ServerId::new(MAX_SERVERS - done) else {
            unreachable!()
        };
        let (ends, halt) = supply.next()?;
        let member = opening.server(alloc, id, ends)?;
        servers.push(ServerPost { member, halt })?;
    }
    Ok(servers)
}
