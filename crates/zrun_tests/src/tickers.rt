//! A ticker: its ticks end a session, and its client comes back.

ghost use Rattle.std.specs.Prelude.{◌≡◌};
ghost use Rattle.zrun.specs.Clients.{SameClient};
ghost use Rattle.zrun.specs.Members.{clients_run};

use crate::calls::{ask, exists};
use crate::runs::start_plain;
use std::alloc::Global;
use std::sync::Wait;
use std::test::Fail;
use std::thread::{Parker, Threads};
use std::time::Duration;
use zaudit::audit;
use zrun::{
    Call, Client, Clients, Data, Kind, Lifetime, Path, Reply, SessionId, Ticker, Ticks, Unanswered,
};
use ztesting::{client, server};

// Opens a session whose timeout is two ticks, unless it is renewed.
fn open(client: &mut Client) -> Option<SessionId>
    ensures { SameClient client.old client.new }
{
    let reply = ask(client, Call::open(2))?;
    match reply {
        Reply::Opened(session, _) => Some(session),
        other => {
            drop(other);
            None
        }
    }
}

// Creates a node of that session, if it isn't over yet. Returns whether the call was answered.
fn create_of(client: &mut Client, alloc: Global, session: SessionId) -> Option<bool>
    ensures { SameClient client.old client.new }
{
    let path = Path::parse(alloc, "/held").ok()?;
    let call = Call::create_as(
        path,
        Kind::named(Lifetime::Ephemeral(session)),
        Data::empty(),
    );
    Some(ask(client, call).is_some())
}

// Asks for the node until it isn't there. Returns whether it is gone.
fn outlive(client: &mut Client, alloc: Global) -> Option<bool>
    ensures { SameClient client.old client.new }
{
    for _ in 0..1_000_000u64 {
        let reply = ask(client, exists(alloc, "/held")?)?;
        let is_gone = matches!(&reply, Reply::Refused(_));
        drop(reply);
        if is_gone {
            return Some(true);
        }
    }
    Some(false)
}

// Opens a session that isn't renewed. Returns whether its node is gone in the end.
fn expire(client: &mut Client, alloc: Global) -> Option<bool>
    ensures { SameClient client.old client.new }
{
    let session = open(client)?;
    if create_of(client, alloc, session) != Some(true) {
        return None;
    }
    outlive(client, alloc)
}

// The same, by one of the clients, while another one ticks. Returns how its asks fared, too.
#[tactic(auto, using(zrun::proofs::Still::still_belongs))]
fn expire_by_ticks<R: Threads + Wait + Copy + Send + 'static>(
    rt: R,
    clients: &mut Clients,
    alloc: Global,
) -> Option<(bool, Ticks)>
    ensures { clients_run clients.new ≡ clients_run clients.old }
{
    let clock = clients.take(client(0))?;
    let ticker = match Ticker::start(rt, alloc, clock, Duration::from_millis(1)) {
        Ok(ticker) => ticker,
        Err((_, clock)) => {
            clients.put(clock);
            return None;
        }
    };
    let gone = expire_by_one(clients, alloc);
    let (clock, ticks) = ticker.stop(&rt);
    clients.put(clock);
    Some((gone == Some(true), ticks))
}

#[tactic(auto, using(zrun::proofs::Still::still_belongs))]
fn expire_by_one(clients: &mut Clients, alloc: Global) -> Option<bool>
    ensures { clients_run clients.new ≡ clients_run clients.old }
{
    let mut one = clients.take(client(1))?;
    let gone = expire(&mut one, alloc);
    clients.put(one);
    gone
}

#[test]
fn ticks_end_a_session(rt: HostRuntime) -> Result<(), Fail> {
    let alloc = rt.alloc();
    let (cluster, console, mut clients) = start_plain(rt, alloc, server(2), 2)?;
    let expired = expire_by_ticks(rt, &mut clients, alloc);
    let traces = cluster.join(&rt, alloc, console, clients)?;
    match expired {
        Some((gone, ticks)) => assert!(rt; gone && ticks.answered >= 1),
        None => return Err("no session has expired".into()),
    }
    assert!(rt; audit(alloc, &traces).is_ok());
    Ok(())
}

// Lets a client tick for a while, where the only server is halted. Returns how its asks fared.
#[tactic(auto, using(zrun::proofs::Still::still_belongs))]
fn tick_in_vain<R: Threads + Wait + Copy + Send + 'static>(
    rt: R,
    clients: &mut Clients,
    alloc: Global,
) -> Option<Ticks>
    ensures { clients_run clients.new ≡ clients_run clients.old }
{
    let mut clock = clients.take(client(0))?;
    clock.halt(server(1));
    let ticker = match Ticker::start(rt, alloc, clock, Duration::from_millis(20)) {
        Ok(ticker) => ticker,
        Err((_, clock)) => {
            clients.put(clock);
            return None;
        }
    };
    Parker::new().park_timeout(&rt, Duration::from_secs(2));
    let (clock, ticks) = ticker.stop(&rt);
    clients.put(clock);
    Some(ticks)
}

// A ticker stops even if a tick has no reply.
#[test]
fn a_ticker_without_a_chain_stops(rt: HostRuntime) -> Result<(), Fail> {
    let alloc = rt.alloc();
    let (cluster, console, mut clients) = start_plain(rt, alloc, server(1), 1)?;
    let ticks = tick_in_vain(rt, &mut clients, alloc);
    let traces = cluster.join(&rt, alloc, console, clients)?;
    let Some(ticks) = ticks else {
        return Err("no ticker".into());
    };
    assert!(rt; ticks.last_fault == Some(Unanswered::NoAnswer));
    assert!(rt; audit(alloc, &traces).is_ok());
    Ok(())
}
