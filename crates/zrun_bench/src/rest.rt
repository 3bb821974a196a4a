//! A cluster with one client that makes a call now and then, so the processor time of its threads
//! and the latency of a call after a pause are measured. It reports the nanoseconds of each call.

ghost use Rattle.std.specs.Prelude.{◌≡◌};
ghost use Rattle.zrun.specs.Clients.{SameClient};
ghost use Rattle.zrun.specs.Members.{clients_run};

use crate::calls::{PATIENCE, create, set};
use crate::order::Rest;
use std::alloc::Global;
use std::rt::Clock;
use std::sync::Wait;
use std::thread::{Parker, Threads};
use std::time::{Duration, Instant};
use zrun::{Client, ClientId, Clients, Cluster, open_gates};

/// Starts a cluster, lets a client make calls, and joins it. Returns how long each call took.
pub fn took<R: Threads + Wait + Clock + Copy + Send + 'static>(
    rt: R,
    alloc: Global,
    order: Rest,
) -> Option<Vec<u128>> {
    let gates = open_gates(alloc).ok()?;
    let (cluster, console, mut clients) = Cluster::start(rt, alloc, order.last, 1, gates).ok()?;
    let took = one_calls(&rt, alloc, &mut clients, order);
    let joined = cluster.join(&rt, alloc, console, clients).is_ok();
    if joined { took } else { None }
}

// Makes the client's calls.
#[tactic(auto, using(zrun::proofs::Still::still_belongs))]
fn one_calls<R: Wait + Clock>(
    rt: &R,
    alloc: Global,
    clients: &mut Clients,
    order: Rest,
) -> Option<Vec<u128>>
    ensures { clients_run clients.new ≡ clients_run clients.old }
{
    let mut one = clients.take(ClientId::new(0)?)?;
    let took = call_all(rt, alloc, &mut one, order);
    clients.put(one);
    took
}

fn call_all<R: Wait + Clock>(
    rt: &R,
    alloc: Global,
    client: &mut Client,
    order: Rest,
) -> Option<Vec<u128>>
    ensures { SameClient client.old client.new }
{
    let mut took = Vec::new(alloc);
    if client.ask(create(alloc).ok()?, PATIENCE).is_err() {
        return None;
    }
    for _ in 0..order.calls {
        Parker::new().park_timeout(rt, Duration::from_micros(order.micros));
        let nanos = call_one(rt, alloc, client)?;
        took.push(nanos).ok()?;
    }
    Some(took)
}

// How long a set takes, which goes through all servers of the chain.
fn call_one<R: Clock>(rt: &R, alloc: Global, client: &mut Client) -> Option<u128>
    ensures { SameClient client.old client.new }
{
    let call = set(alloc).ok()?;
    let start = Instant::now(rt).ok()?;
    let is_answered = client.ask(call, PATIENCE).is_ok();
    let elapsed = start.elapsed(rt).ok()?;
    if is_answered {
        Some(elapsed.as_nanos())
    } else {
        None
    }
}
