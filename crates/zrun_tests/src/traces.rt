//! What the audit says of the traces of a joined cluster: as they are, and with one thing changed.

ghost use Rattle.std.specs.Prelude.{◌≡◌};
ghost use Rattle.zrun.specs.Clients.{SameClient};
ghost use Rattle.zrun.specs.Members.{clients_run};

use crate::calls::{ask, create, get};
use crate::runs::start_plain;
use std::alloc::Global;
use std::sync::Wait;
use std::test::Fail;
use std::thread::Threads;
use zaudit::{AuditFault, audit};
use zcalls::Reply;
use zprotocol::MAX_SERVERS;
use zprotocol::traces::Traces;
use zprotocol::world::CallEvent;
use zrun::{Client, Clients};
use ztesting::{call_number, client, server};

// What the client of a run does.
#[derive(Clone, Copy, PartialEq, Eq)]
enum Work {
    Nothing,
    RetriesInVain,
    CreatesAndGets,
    BeginsAndRetries,
}

// Whether the client does this.
fn do_work(client: &mut Client, alloc: Global, work: Work) -> Option<bool>
    ensures { SameClient client.old client.new }
{
    match work {
        Work::Nothing => Some(true),
        Work::RetriesInVain => Some(client.retry() == Ok(false)),
        Work::CreatesAndGets => create_and_get(client, alloc),
        Work::BeginsAndRetries => begin_and_retry(client, alloc),
    }
}

fn create_and_get(client: &mut Client, alloc: Global) -> Option<bool>
    ensures { SameClient client.old client.new }
{
    if ask(client, create(alloc, "/a")?).is_none() {
        return None;
    }
    Some(ask(client, get(alloc, "/a")?).is_some())
}

fn begin_and_retry(client: &mut Client, alloc: Global) -> Option<bool>
    ensures { SameClient client.old client.new }
{
    let call = create(alloc, "/a")?;
    let is_begun = client.begin(call).is_ok();
    Some(is_begun && client.retry() == Ok(true))
}

// Whether the first client does this.
#[tactic(auto, using(zrun::proofs::Still::still_belongs))]
fn work_by_one(clients: &mut Clients, alloc: Global, work: Work) -> Option<bool>
    ensures { clients_run clients.new ≡ clients_run clients.old }
{
    let Some(mut one) = clients.take(client(0)) else {
        return None;
    };
    let done = do_work(&mut one, alloc, work);
    clients.put(one);
    done
}

// The traces of one server and a client that does this.
fn traces_of<R: Threads + Wait + Copy + Send + 'static>(
    rt: R,
    alloc: Global,
    work: Work,
) -> Result<Traces, Fail> {
    let (cluster, console, mut clients) = start_plain(rt, alloc, server(1), 1)?;
    let done = work_by_one(&mut clients, alloc, work);
    let traces = cluster.join(&rt, alloc, console, clients)?;
    if done == Some(true) {
        Ok(traces)
    } else {
        Err("the work is done".into())
    }
}

// How many events the history has, or the fault.
fn verdict(alloc: Global, traces: &Traces) -> Result<usize, AuditFault> {
    let history = audit(alloc, traces)?;
    Ok(history.len())
}

#[test]
fn a_run_is_ok_as_it_was(rt: HostRuntime) -> Result<(), Fail> {
    let traces = traces_of(rt, rt.alloc(), Work::CreatesAndGets)?;
    assert!(rt; verdict(rt.alloc(), &traces) == Ok(4));
    Ok(())
}

#[test]
fn another_reply_is_a_mismatch(rt: HostRuntime) -> Result<(), Fail> {
    let mut traces = traces_of(rt, rt.alloc(), Work::CreatesAndGets)?;
    assert!(rt; traces.clients.len() == 1 && traces.clients[0].record.len() == 4);
    traces.clients[0].record[1] = CallEvent::Answer(client(0), call_number(1), Reply::Pinged);
    assert!(rt; verdict(rt.alloc(), &traces) == Err(AuditFault::Mismatch));
    Ok(())
}

#[test]
fn one_stamp_twice_is_disorder(rt: HostRuntime) -> Result<(), Fail> {
    let mut traces = traces_of(rt, rt.alloc(), Work::CreatesAndGets)?;
    assert!(rt;
        traces.servers.len() == MAX_SERVERS as usize && traces.servers[0].events.len() == 2
    );
    let first = traces.servers[0].events[0].stamp;
    traces.servers[0].events[1].stamp = first;
    assert!(rt; verdict(rt.alloc(), &traces) == Err(AuditFault::Disorder));
    Ok(())
}

#[test]
fn a_cut_trace_is_reported(rt: HostRuntime) -> Result<(), Fail> {
    let mut traces = traces_of(rt, rt.alloc(), Work::CreatesAndGets)?;
    traces.master.is_cut = true;
    assert!(rt; verdict(rt.alloc(), &traces) == Err(AuditFault::Cut));
    Ok(())
}

#[test]
fn nothing_done_is_ok(rt: HostRuntime) -> Result<(), Fail> {
    let traces = traces_of(rt, rt.alloc(), Work::Nothing)?;
    assert!(rt; verdict(rt.alloc(), &traces) == Ok(0));
    Ok(())
}

#[test]
fn a_retry_of_nothing_leaves_no_trace(rt: HostRuntime) -> Result<(), Fail> {
    let traces = traces_of(rt, rt.alloc(), Work::RetriesInVain)?;
    assert!(rt; traces.clients.len() == 1 && traces.clients[0].trace.events.is_empty());
    assert!(rt; verdict(rt.alloc(), &traces) == Ok(0));
    Ok(())
}

#[test]
fn a_retry_is_an_event(rt: HostRuntime) -> Result<(), Fail> {
    let traces = traces_of(rt, rt.alloc(), Work::BeginsAndRetries)?;
    assert!(rt; traces.clients.len() == 1 && traces.clients[0].trace.events.len() == 2);
    assert!(rt; verdict(rt.alloc(), &traces).is_ok());
    Ok(())
}
