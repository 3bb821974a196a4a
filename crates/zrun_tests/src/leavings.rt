//! A server joins, and the first one is ordered to leave, while the client's calls continue.

ghost use Rattle.std.specs.Prelude.{◌≡◌};
ghost use Rattle.zrun.specs.Clients.{SameClient};
ghost use Rattle.zrun.specs.Members.{clients_run};

use crate::calls::{ask, create, set};
use crate::gates::{Meeting, Sought};
use crate::joins::{turn_until, version_of};
use crate::runs;
use std::alloc::Global;
use std::sync::Wait;
use std::test::Fail;
use zaudit::audit;
use zprotocol::traces::{Act, Traces};
use zrun::{Client, Clients, Console};
use ztesting::{client, server};

// Sets the node fifty times, each time until it is answered, and orders the first server to leave
// after 25 of them. Whether all were answered, and the order was handed on.
fn set_fifty<R: Wait>(
    rt: &R,
    client: &mut Client,
    console: &mut Console,
    alloc: Global,
) -> Option<bool>
    ensures { SameClient client.old client.new }
{
    let mut is_ordered = false;
    for done in 1..=50u8 {
        let Some(reply) = ask(client, set(alloc, "/n")?) else {
            return None;
        };
        drop(reply);
        if done == 25 {
            is_ordered = console.retire(rt, server(1)).is_ok();
        }
    }
    Some(is_ordered)
}

// What the client of the test does, once the joining server has the state: the node's version then.
fn outlive_the_head<R: Wait>(
    rt: &R,
    client: &mut Client,
    console: &mut Console,
    alloc: Global,
    meeting: &Meeting,
) -> Option<u64>
    ensures { SameClient client.old client.new }
{
    if ask(client, create(alloc, "/n")?).is_none() {
        return None;
    }
    turn_until(client, meeting);
    if meeting.met() != 1 {
        return None;
    }
    if !set_fifty(rt, client, console, alloc)? {
        return None;
    }
    version_of(client, alloc)
}

// The same, by one of the clients.
#[tactic(auto, using(zrun::proofs::Still::still_belongs))]
fn outlive<R: Wait>(
    rt: &R,
    clients: &mut Clients,
    console: &mut Console,
    alloc: Global,
    meeting: &Meeting,
) -> Option<u64>
    ensures { clients_run clients.new ≡ clients_run clients.old }
{
    let Some(mut one) = clients.take(client(1)) else {
        return None;
    };
    let version = outlive_the_head(rt, &mut one, console, alloc, meeting);
    clients.put(one);
    version
}

// Whether the first server took the order to leave, as the last of what it did.
fn first_has_left(traces: &Traces) -> bool {
    let Some(first) = traces.servers.first() else {
        return false;
    };
    match first.events.last() {
        Some(event) => matches!(&event.act, Act::Left),
        None => false,
    }
}

#[test]
fn head_is_replaced(rt: HostRuntime) -> Result<(), Fail> {
    let alloc = rt.alloc();
    let meeting = Meeting::new(alloc, 1)?;
    let sought = [Sought::Nothing, Sought::Nothing, Sought::Snapshot];
    let (cluster, mut console, mut clients) = runs::start(
        rt,
        alloc,
        server(2),
        2,
        &meeting,
        sought,
    )?;
    let joins = console.join(&rt, server(3)).is_ok();
    let version = outlive(&rt, &mut clients, &mut console, alloc, &meeting);
    let traces = cluster.join(&rt, alloc, console, clients)?;
    assert!(rt; joins);
    assert!(rt; version == Some(50));
    assert!(rt; first_has_left(&traces));
    assert!(rt; audit(alloc, &traces).is_ok());
    Ok(())
}
