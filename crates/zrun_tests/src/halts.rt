//! A server that is halted takes nothing more.

ghost use Rattle.std.specs.Prelude.{◌≡◌};
ghost use Rattle.zrun.specs.Clients.{SameClient};
ghost use Rattle.zrun.specs.Members.{clients_run};

use crate::calls::{ask, create, exists};
use crate::runs::start_plain;
use std::alloc::Global;
use std::test::Fail;
use std::thread;
use zaudit::audit;
use zprotocol::traces::{Act, Trace};
use zrun::{Client, Clients, Unanswered};
use ztesting::{client, server};

// Far longer than an answer takes; this is how long a missing one is waited for.
const TURNS: u64 = 1_000_000;

// Begins a call and takes steps until its reply comes. Whether it did. No step yields to other
// threads, so a busy machine makes few of them late.
fn is_answered(client: &mut Client, alloc: Global) -> Option<bool>
    ensures { SameClient client.old client.new }
{
    let call = exists(alloc, "/")?;
    if client.begin(call).is_err() {
        return None;
    }
    for _ in 0..TURNS {
        if let Some(reply) = client.turn() {
            drop(reply);
            return Some(true);
        }
    }
    Some(false)
}

// How many of three calls are answered, and why the next one isn't.
fn ask_halted(client: &mut Client, alloc: Global) -> Option<(u8, Option<Unanswered>)>
    ensures { SameClient client.old client.new }
{
    let mut answered = 0u8;
    for _ in 0..3 {
        if !is_answered(client, alloc)? {
            return Some((answered, client.wait(1).err()));
        }
        answered = answered.saturating_add(1);
    }
    Some((answered, None))
}

// Whether at most one call is answered once the only server is halted, and the next one isn't.
fn halt_and_ask(client: &mut Client, alloc: Global) -> Option<bool>
    ensures { SameClient client.old client.new }
{
    if ask(client, create(alloc, "/a")?).is_none() {
        return None;
    }
    client.halt(server(1));
    let (answered, fault) = ask_halted(client, alloc)?;
    let is_retried = client.retry().is_ok();
    Some(answered <= 1 && fault == Some(Unanswered::NoAnswer) && is_retried)
}

// The same, by one of the clients.
#[tactic(auto, using(zrun::proofs::Still::still_belongs))]
fn halt_by_one(clients: &mut Clients, alloc: Global) -> Option<bool>
    ensures { clients_run clients.new ≡ clients_run clients.old }
{
    let Some(mut one) = clients.take(client(1)) else {
        return None;
    };
    let done = halt_and_ask(&mut one, alloc);
    clients.put(one);
    done
}

#[test]
fn halted(rt: HostRuntime) -> Result<(), Fail> {
    let alloc = rt.alloc();
    let (cluster, console, mut clients) = start_plain(rt, alloc, server(1), 2)?;
    let done = halt_by_one(&mut clients, alloc);
    let traces = cluster.join(&rt, alloc, console, clients)?;
    drop(traces);
    assert!(rt; done == Some(true));
    Ok(())
}

/// Halts the first server, and takes steps until the master announces the new chain. Whether it
/// did.
pub fn halt_and_hear(client: &mut Client) -> bool
    ensures { SameClient client.old client.new }
{
    client.halt(server(1));
    let before = client.stamp();
    for _ in 0..TURNS {
        if let Some(reply) = client.turn() {
            drop(reply);
        }
        if client.stamp() != before {
            return true;
        }
        thread::yield_now();
    }
    false
}

// Halts the first server. Whether the chain is repaired then, and a call is answered.
fn outlive_the_first(client: &mut Client, alloc: Global) -> Option<bool>
    ensures { SameClient client.old client.new }
{
    if !halt_and_hear(client) {
        return None;
    }
    Some(ask(client, create(alloc, "/a")?).is_some())
}

// The same, by one of the clients.
#[tactic(auto, using(zrun::proofs::Still::still_belongs))]
fn outlive_by_one(clients: &mut Clients, alloc: Global) -> Option<bool>
    ensures { clients_run clients.new ≡ clients_run clients.old }
{
    let Some(mut one) = clients.take(client(1)) else {
        return None;
    };
    let done = outlive_the_first(&mut one, alloc);
    clients.put(one);
    done
}

// Whether all that the server did is that it was halted.
fn is_halted_alone(trace: &Trace) -> bool {
    if trace.events.len() != 1 {
        return false;
    }
    match &trace.events[0].act {
        Act::Halted => true,
        _ => false,
    }
}

#[test]
fn a_halted_server_receives_nothing(rt: HostRuntime) -> Result<(), Fail> {
    let alloc = rt.alloc();
    let (cluster, console, mut clients) = start_plain(rt, alloc, server(2), 2)?;
    let done = outlive_by_one(&mut clients, alloc);
    let traces = cluster.join(&rt, alloc, console, clients)?;
    assert!(rt; done == Some(true));
    assert!(rt; traces.servers.len() == 16 && is_halted_alone(&traces.servers[0]));
    assert!(rt; audit(alloc, &traces).is_ok());
    Ok(())
}
