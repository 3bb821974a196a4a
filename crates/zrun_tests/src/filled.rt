//! More messages than a ring has room for.

ghost use Rattle.std.specs.Prelude.{◌≡◌};
ghost use Rattle.zrun.specs.Clients.{SameClient};
ghost use Rattle.zrun.specs.Members.{clients_run};

use crate::calls::create;
use crate::gates::{Meeting, Sought};
use crate::runs;
use std::alloc::Global;
use std::test::Fail;
use std::thread;
use zaudit::audit;
use zrun::{Client, Clients};
use ztesting::{client, server};

// A call is sent this many times in all: a ring has room for 64 messages.
const SENT: u32 = 150;

// All is received far sooner; this is how long a missing message is waited for.
const TURNS: u64 = 10_000_000;

// Begins a call, and sends it again. Whether it was sent as often as it is to be.
fn send_all(client: &mut Client, alloc: Global) -> Option<bool>
    ensures { SameClient client.old client.new }
{
    let call = create(alloc, "/a")?;
    if client.begin(call).is_err() {
        return None;
    }
    for _ in 1..SENT {
        if client.retry() != Ok(true) {
            return None;
        }
    }
    Some(true)
}

// Takes one step. Whether a message was received: then the client's last stamp is later.
fn hears(client: &mut Client) -> bool
    ensures { SameClient client.old client.new }
{
    let before = client.stamp();
    if let Some(reply) = client.turn() {
        drop(reply);
    }
    client.stamp() != before
}

// Takes steps until each message has its answer, of which some were received before. How many were
// received in all, and whether two of them were received at two steps in a row.
fn hear_all(client: &mut Client, before: u32) -> (u32, bool)
    ensures { SameClient client.old client.new }
{
    let mut heard = before;
    let mut was_heard = false;
    let mut in_a_row = false;
    for _ in 0..TURNS {
        if heard >= SENT {
            break;
        }
        let is_heard = hears(client);
        if is_heard {
            heard = heard.saturating_add(1);
            in_a_row |= was_heard;
        } else {
            thread::yield_now();
        }
        was_heard = is_heard;
    }
    (heard, in_a_row)
}

// Fills the ring to the server, which is held at its second message, and then lets it continue.
fn fill_and_hear(client: &mut Client, alloc: Global, meeting: &Meeting) -> Option<(u32, bool)>
    ensures { SameClient client.old client.new }
{
    if send_all(client, alloc).is_none() {
        return None;
    }
    // The first message may be answered already: that answer isn't waited for again.
    let first = if hears(client) { 1 } else { 0 };
    meeting.come();
    Some(hear_all(client, first))
}

// The same, by one of the clients.
#[tactic(auto, using(zrun::proofs::Still::still_belongs))]
fn fill_by_one(clients: &mut Clients, alloc: Global, meeting: &Meeting) -> Option<(u32, bool)>
    ensures { clients_run clients.new ≡ clients_run clients.old }
{
    let Some(mut one) = clients.take(client(0)) else {
        return None;
    };
    let done = fill_and_hear(&mut one, alloc, meeting);
    clients.put(one);
    done
}

// Each message has its answer, though neither ring had room for all: what waits is sent later. And
// a link from which a message was just taken is served again in the next round.
#[test]
fn a_full_ring_is_emptied(rt: HostRuntime) -> Result<(), Fail> {
    let alloc = rt.alloc();
    let meeting = Meeting::new(alloc, 2)?;
    let sought = [Sought::SecondSubmit, Sought::Nothing, Sought::Nothing];
    let (cluster, console, mut clients) = runs::start(rt, alloc, server(1), 2, &meeting, sought)?;
    let done = fill_by_one(&mut clients, alloc, &meeting);
    let traces = cluster.join(&rt, alloc, console, clients)?;
    let (heard, in_a_row) = done.ok_or("all is sent")?;
    assert!(rt; heard == SENT && in_a_row);
    assert!(rt; traces.servers.len() == 16 && traces.servers[0].events.len() == SENT as usize);
    assert!(rt; audit(alloc, &traces).is_ok());
    Ok(())
}
