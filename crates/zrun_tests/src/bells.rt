//! Threads that found nothing to do are woken. Here they sleep for a minute at a time unless they
//! are, and each test has to be over within some seconds.

ghost use Rattle.std.specs.Prelude.{◌≡◌, IfOk};
ghost use Rattle.zrun.specs.Clients.{SameClient};
ghost use Rattle.zrun.specs.Clusters.{cluster_run};
ghost use Rattle.zrun.specs.Members.{clients_run};

use crate::calls::create;
use crate::runs::Started;
use std::alloc::Global;
use std::rt::Clock;
use std::sync::Wait;
use std::test::Fail;
use std::thread;
use std::thread::{Parker, Threads};
use std::time::{Duration, Instant};
use zaudit::audit;
use zprotocol::ServerId;
use zrun::{Client, Clients, Cluster, open_gates};
use ztesting::{client, server};

// Starts a cluster of two clients whose threads sleep for a minute, and waits until they do.
fn start_asleep<R: Threads + Wait + Copy + Send + 'static>(
    rt: R,
    alloc: Global,
    last: ServerId,
) -> Result<Started, Fail>
    ensures { IfOk result (λ run. clients_run run.2 ≡ cluster_run run.0) }
{
    let gates = open_gates(alloc)?;
    let minute = Duration::from_secs(60);
    let started = Cluster::start_sleeping(rt, alloc, last, 2, gates, minute)?;
    rest(&rt);
    Ok(started)
}

// Waits until all that found nothing to do sleep.
fn rest<R: Wait>(rt: &R) {
    Parker::new().park_timeout(rt, Duration::from_millis(300));
}

// Whether it is less than twenty seconds ago: a thread that isn't woken sleeps longer.
fn is_soon<R: Clock>(rt: &R, start: Instant) -> bool {
    match start.elapsed(rt) {
        Ok(elapsed) => elapsed < Duration::from_secs(20),
        Err(_) => false,
    }
}

// Takes steps until the client receives something. Whether that was soon.
fn hears_soon<R: Clock>(rt: &R, client: &mut Client) -> bool
    ensures { SameClient client.old client.new }
{
    let Ok(start) = Instant::now(rt) else {
        return false;
    };
    let before = client.stamp();
    for _ in 0..1_000_000_000u64 {
        if let Some(reply) = client.turn() {
            drop(reply);
        }
        if client.stamp() != before {
            return true;
        }
        if !is_soon(rt, start) {
            return false;
        }
        thread::yield_now();
    }
    false
}

// What a client does before it listens.
#[derive(Clone, Copy)]
enum Deed {
    Call,
    HaltTheFirst,
    Nothing,
}

// Does that, and whether the client then receives something soon.
fn does_and_hears<R: Clock>(rt: &R, client: &mut Client, alloc: Global, deed: Deed) -> bool
    ensures { SameClient client.old client.new }
{
    match deed {
        Deed::Call => {
            let Some(call) = create(alloc, "/a") else {
                return false;
            };
            if client.begin(call).is_err() {
                return false;
            }
        }
        Deed::HaltTheFirst => client.halt(server(1)),
        Deed::Nothing => {}
    }
    hears_soon(rt, client)
}

// The same, by one of the clients.
#[tactic(auto, using(zrun::proofs::Still::still_belongs))]
fn one_hears<R: Clock>(rt: &R, clients: &mut Clients, alloc: Global, deed: Deed) -> bool
    ensures { clients_run clients.new ≡ clients_run clients.old }
{
    let Some(mut one) = clients.take(client(1)) else {
        return false;
    };
    let heard = does_and_hears(rt, &mut one, alloc, deed);
    clients.put(one);
    heard
}

// Joins a cluster whose threads sleep. Whether that was soon, and its audit is ok.
fn ends_soon<R: Threads + Wait + Clock>(rt: &R, alloc: Global, run: Started) -> Result<bool, Fail>
    requires { clients_run run.2 ≡ cluster_run run.0 }
{
    let (cluster, console, clients) = run;
    rest(rt);
    let start = Instant::now(rt)?;
    let traces = cluster.join(rt, alloc, console, clients)?;
    Ok(is_soon(rt, start) && audit(alloc, &traces).is_ok())
}

// A call goes through three servers that sleep.
#[test]
fn a_message_wakes_its_receiver(rt: HostRuntime) -> Result<(), Fail> {
    let alloc = rt.alloc();
    let (cluster, console, mut clients) = start_asleep(rt, alloc, server(3))?;
    let heard = one_hears(&rt, &mut clients, alloc, Deed::Call);
    let ended = ends_soon(&rt, alloc, (cluster, console, clients))?;
    assert!(rt; heard && ended);
    Ok(())
}

// The halted server notifies the master, and the master the clients.
#[test]
fn a_halt_wakes_its_server(rt: HostRuntime) -> Result<(), Fail> {
    let alloc = rt.alloc();
    let (cluster, console, mut clients) = start_asleep(rt, alloc, server(2))?;
    let heard = one_hears(&rt, &mut clients, alloc, Deed::HaltTheFirst);
    let ended = ends_soon(&rt, alloc, (cluster, console, clients))?;
    assert!(rt; heard && ended);
    Ok(())
}

// The clients are notified once the server has joined.
#[test]
fn an_order_wakes_the_master(rt: HostRuntime) -> Result<(), Fail> {
    let alloc = rt.alloc();
    let (cluster, mut console, mut clients) = start_asleep(rt, alloc, server(2))?;
    let ordered = console.join(&rt, server(3)).is_ok();
    let heard = one_hears(&rt, &mut clients, alloc, Deed::Nothing);
    let ended = ends_soon(&rt, alloc, (cluster, console, clients))?;
    assert!(rt; ordered && heard && ended);
    Ok(())
}
