//! What the processes of a run left, once their threads have ended.

ghost use Rattle.std.specs.Prelude.{◌≡◌, ◌≤◌, [], IfOk, length, map, true};
ghost use Rattle.std.specs.Vec.{vec_capacity};
ghost use Rattle.zprotocol.specs.declared.limits.TheConstants.{MAX_SERVERS};
ghost use Rattle.zrun.specs.Handles.{given_server};
ghost use Rattle.zrun.specs.Runs.{AreLeftBy, Pairs};
ghost use Rattle.zrun.specs.Origins.{client_endpoints};
ghost use Rattle.zrun.specs.Clients.{IsLeftIn};
ghost use Rattle.zrun.specs.Members.{clients_run};

use crate::client::Client;
use crate::clients::Clients;
use crate::promises::SameServer;
use std::alloc::Global;
use std::thread::{PromisedHandle, Threads};
use zalloc::Memory;
use zprotocol::traces::Trace;
use zthreads::{Ending, ServerThread};

/// Joins the servers' threads. Returns what they left, the first one first.
pub(crate) fn join_servers<R: Threads>(
    rt: &R,
    servers: Vec<PromisedHandle<ServerThread, SameServer>>,
    mut endings: Vec<Ending>,
) -> Vec<Ending>
    requires servers { length servers.items ≡ MAX_SERVERS }
    requires none { endings.items ≡ [] }
    requires room { MAX_SERVERS ≤ vec_capacity endings }
    ensures count { length result.items ≡ MAX_SERVERS }
    ensures left { AreLeftBy (map given_server servers.items) result.items }
{
    for server in servers {
        endings.push_reserved(server.join(rt).into_ending());
    }
    endings
}

/// Returns what the clients left, by number. The trace of a client that isn't here is cut, and what
/// it did is lost.
pub(crate) fn end_clients(alloc: Global, clients: Clients) -> Result<Vec<Ending>, Memory>
    ensures left { IfOk result (λ ended.
        AreLeftBy (client_endpoints (clients_run clients)) ended.items) }
    ensures kept { IfOk result (λ ended. Pairs IsLeftIn clients.places.items ended.items) }
{
    let Clients { places, .. } = clients;
    let mut endings = Vec::with_capacity(alloc, places.len())?;
    for place in places {
        endings.push(end_client(alloc, place))?;
    }
    Ok(endings)
}

// Returns what a client left, if it is here. Otherwise what it did is lost.
fn end_client(alloc: Global, place: Option<Client>) -> Ending
    ensures { IsLeftIn place result }
{
    match place {
        Some(client) => client.caller.into_ending().1,
        None => missing(alloc),
    }
}

// Returns what represents a client that isn't here.
fn missing(alloc: Global) -> Ending
    ensures cut { result.trace.is_cut ≡ true }
    ensures lost { result.is_lost ≡ true }
{
    Ending {
        ins: Vec::new(alloc),
        outs: Vec::new(alloc),
        trace: Trace {
            events: Vec::new(alloc),
            is_cut: true,
        },
        seen: Vec::new(alloc),
        is_lost: true,
    }
}
