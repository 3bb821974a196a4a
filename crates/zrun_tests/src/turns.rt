//! A client takes all the steps that it may.

ghost use Rattle.std.specs.Prelude.{◌≡◌, ◌<◌};
ghost use Rattle.zrun.specs.Clients.{SameClient};
ghost use Rattle.zrun.specs.Members.{clients_run};

use crate::calls::{ask, exists};
use crate::runs::start_plain;
use std::alloc::Global;
use std::sync::Wait;
use std::test::Fail;
use std::thread::Threads;
use zaudit::audit;
use zprotocol::traces::{Act, Trace, Traces};
use zrun::{Client, Clients, Patience, Unanswered};
use ztesting::{client, server};

// This many more answers are in the client's ring, which has room for 64.
const STALE: u32 = 20;

// Without a resend, as many steps as there are answers; with three resends, too.
const TURNS: u64 = 20;

const PATIENCE: Patience = Patience {
    turns: 5,
    retries: 3,
};

// How the client waits.
#[derive(Clone, Copy, PartialEq, Eq)]
enum Waiting {
    Calls,
    Asks,
}

// Sends one call again and again. Whether its first answer came at once.
fn send_often(client: &mut Client, alloc: Global) -> Option<bool>
    ensures { SameClient client.old client.new }
{
    let call = exists(alloc, "/")?;
    if client.begin(call).is_err() {
        return None;
    }
    for _ in 0..STALE {
        if client.retry() != Ok(true) {
            return None;
        }
    }
    // What was sent goes into the ring at a step.
    Some(hears_answer(client))
}

// Takes one step. Whether it brought the reply.
fn hears_answer(client: &mut Client) -> bool
    ensures { SameClient client.old client.new }
{
    match client.wait(1) {
        Ok(reply) => {
            drop(reply);
            true
        }
        Err(_) => false,
    }
}

// Makes more calls than the other client sent, one by one. The server receives one message of each
// client in a round, so it has answered all of the other's before the last of these.
fn outlast(client: &mut Client, alloc: Global) -> Option<bool>
    ensures { SameClient client.old client.new }
{
    for _ in 0..STALE + 4 {
        if ask(client, exists(alloc, "/")?).is_none() {
            return None;
        }
    }
    Some(true)
}

// Leaves answers of a call that has its reply in the first client's ring. Whether they are there.
fn fill(one: &mut Client, other: &mut Client, alloc: Global) -> Option<bool>
    ensures one { SameClient one.old one.new }
    ensures other { SameClient other.old other.new }
{
    let is_answered = send_often(one, alloc)?;
    if outlast(other, alloc).is_none() {
        return None;
    }
    if is_answered {
        return Some(true);
    }
    Some(hears_answer(one))
}

// Whether there is no reply within the client's steps. It then sends the call once more.
fn wait_in_vain(client: &mut Client, alloc: Global, how: Waiting) -> Option<bool>
    ensures { SameClient client.old client.new }
{
    let call = exists(alloc, "/")?;
    let result = match how {
        Waiting::Calls => client.call(call, TURNS),
        Waiting::Asks => client.ask(call, PATIENCE),
    };
    let is_late = match result {
        Ok(reply) => {
            drop(reply);
            false
        }
        Err(fault) => fault == Unanswered::NoAnswer,
    };
    Some(is_late && client.retry() == Ok(true))
}

// The same, by one of the clients, with stale answers in its ring.
#[tactic(auto, using(zrun::proofs::Still::still_belongs))]
fn wait_by_one(clients: &mut Clients, alloc: Global, how: Waiting) -> Option<bool>
    ensures { clients_run clients.new ≡ clients_run clients.old }
{
    let Some(mut one) = clients.take(client(0)) else {
        return None;
    };
    let Some(mut other) = clients.take(client(1)) else {
        clients.put(one);
        return None;
    };
    let is_filled = fill(&mut one, &mut other, alloc) == Some(true);
    let is_late = wait_in_vain(&mut one, alloc, how) == Some(true);
    clients.put(one);
    clients.put(other);
    Some(is_filled && is_late)
}

// The traces of one server and two clients, one of which waits in vain.
fn traces_of<R: Threads + Wait + Copy + Send + 'static>(
    rt: R,
    alloc: Global,
    how: Waiting,
) -> Result<Traces, Fail> {
    let (cluster, console, mut clients) = start_plain(rt, alloc, server(1), 2)?;
    let done = wait_by_one(&mut clients, alloc, how);
    let traces = cluster.join(&rt, alloc, console, clients)?;
    if done == Some(true) {
        Ok(traces)
    } else {
        Err("it waits in vain".into())
    }
}

// Whether this many events follow the last call, of which each `every`th is a resend, and all
// others are received messages.
fn are_turns(trace: &Trace, every: u64, count: u64) -> bool
    requires { 0 < every }
{
    let mut seen = 0u64;
    let mut fits = true;
    for place in 0..trace.events.len() {
        seen = seen.saturating_add(1);
        match &trace.events[place].act {
            Act::Began(_) => {
                seen = 0;
                fits = true;
            }
            Act::Retried => fits &= seen % every == 0,
            _ => fits &= seen % every != 0,
        }
    }
    fits && seen == count
}

// Twenty steps, each of which received a message.
#[test]
fn a_call_takes_all_its_turns(rt: HostRuntime) -> Result<(), Fail> {
    let traces = traces_of(rt, rt.alloc(), Waiting::Calls)?;
    assert!(rt; traces.clients.len() == 2 && are_turns(&traces.clients[0].trace, 21, 21));
    assert!(rt; audit(rt.alloc(), &traces).is_ok());
    Ok(())
}

// Five steps after each of four sends.
#[test]
fn an_ask_takes_all_its_turns(rt: HostRuntime) -> Result<(), Fail> {
    let traces = traces_of(rt, rt.alloc(), Waiting::Asks)?;
    assert!(rt; traces.clients.len() == 2 && are_turns(&traces.clients[0].trace, 6, 24));
    assert!(rt; audit(rt.alloc(), &traces).is_ok());
    Ok(())
}
