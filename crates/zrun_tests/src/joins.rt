//! A server joins a chain whose servers are then halted, one by one.

ghost use Rattle.std.specs.Prelude.{◌≡◌};
ghost use Rattle.zrun.specs.Clients.{SameClient};
ghost use Rattle.zrun.specs.Members.{clients_run};

use crate::calls::{ask, create, exists, set};
use crate::gates::{Meeting, Sought};
use crate::runs;
use std::alloc::Global;
use std::test::Fail;
use std::thread;
use zaudit::audit;
use zcalls::Reply;
use zrun::{Client, Clients};
use ztesting::{client, server};

/// Takes steps until a gate has seen the message that it looks for, a hundred million at most.
pub fn turn_until(client: &mut Client, meeting: &Meeting)
    ensures { SameClient client.old client.new }
{
    for _ in 0..100_000_000u64 {
        if meeting.met() > 0 {
            return;
        }
        if let Some(reply) = client.turn() {
            drop(reply);
        }
    }
}

// Asks until a server's gate has seen a query, a hundred thousand times at most. That server has
// joined then: it is the tail, and the client knows it.
fn ask_until(client: &mut Client, alloc: Global, meeting: &Meeting) -> Option<()>
    ensures { SameClient client.old client.new }
{
    for _ in 0..100_000u64 {
        if meeting.met() > 0 {
            return Some(());
        }
        let Some(reply) = ask(client, exists(alloc, "/n")?) else {
            return None;
        };
        drop(reply);
        thread::yield_now();
    }
    None
}

// Sets the node fifty times, each time until it is answered. It halts the first server after 25 of
// them, and the second one after 30. Whether all were answered.
fn set_fifty(client: &mut Client, alloc: Global) -> Option<bool>
    ensures { SameClient client.old client.new }
{
    for done in 1..=50u8 {
        let Some(reply) = ask(client, set(alloc, "/n")?) else {
            return None;
        };
        drop(reply);
        if done == 25 {
            client.halt(server(1));
        }
        if done == 30 {
            client.halt(server(2));
        }
    }
    Some(true)
}

/// The node's version.
pub fn version_of(client: &mut Client, alloc: Global) -> Option<u64>
    ensures { SameClient client.old client.new }
{
    let reply = ask(client, exists(alloc, "/n")?)?;
    match &reply {
        Reply::Exists(stat) => Some(stat.version),
        _ => None,
    }
}

// What the client of the test does, once the server has joined: whether all was answered.
fn outlive_both(client: &mut Client, alloc: Global, meeting: &Meeting) -> Option<bool>
    ensures { SameClient client.old client.new }
{
    if ask(client, create(alloc, "/n")?).is_none() {
        return None;
    }
    ask_until(client, alloc, meeting)?;
    if !set_fifty(client, alloc)? {
        return None;
    }
    Some(version_of(client, alloc)? == 50)
}

// The same, by one of the clients.
#[tactic(auto, using(zrun::proofs::Still::still_belongs))]
fn outlive(clients: &mut Clients, alloc: Global, meeting: &Meeting) -> Option<bool>
    ensures { clients_run clients.new ≡ clients_run clients.old }
{
    let Some(mut one) = clients.take(client(1)) else {
        return None;
    };
    let done = outlive_both(&mut one, alloc, meeting);
    clients.put(one);
    done
}

#[test]
fn late_join(rt: HostRuntime) -> Result<(), Fail> {
    let alloc = rt.alloc();
    let meeting = Meeting::new(alloc, 1)?;
    let sought = [Sought::Nothing, Sought::Nothing, Sought::Query];
    let (cluster, mut console, mut clients) = runs::start(
        rt,
        alloc,
        server(2),
        2,
        &meeting,
        sought,
    )?;
    let ordered = console.join(&rt, server(3)).is_ok();
    let done = outlive(&mut clients, alloc, &meeting);
    let traces = cluster.join(&rt, alloc, console, clients)?;
    assert!(rt; ordered);
    assert!(rt; done == Some(true));
    assert!(rt; audit(alloc, &traces).is_ok());
    Ok(())
}
