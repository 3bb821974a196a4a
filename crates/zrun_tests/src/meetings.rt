//! Three servers that each hold a message at one time: each has a thread of its own.

ghost use Rattle.std.specs.Prelude.{◌≡◌};
ghost use Rattle.zrun.specs.Members.{clients_run};

use crate::apart::{end, start};
use crate::calls::{create, exists};
use crate::gates::{Meeting, Sought};
use crate::runs;
use std::alloc::Global;
use std::test::Fail;
use std::thread::Threads;
use zaudit::audit;
use zrun::Clients;
use ztesting::{client, server};

// Three clients call at one time, each on a thread of its own: whether all are answered.
fn call_at_once<R: Threads>(rt: &R, alloc: Global, clients: &mut Clients) -> Option<bool>
    ensures { clients_run clients.new ≡ clients_run clients.old }
{
    let one = start(rt, clients, client(1), create(alloc, "/a")?)?;
    let two = start(rt, clients, client(2), create(alloc, "/b")?)?;
    let three = start(rt, clients, client(3), exists(alloc, "/")?)?;
    let first = end(rt, clients, one);
    let second = end(rt, clients, two);
    let third = end(rt, clients, three);
    Some(first && second && third)
}

#[test]
fn held_head(rt: HostRuntime) -> Result<(), Fail> {
    let alloc = rt.alloc();
    let meeting = Meeting::new(alloc, 3)?;
    let sought = [Sought::SecondSubmit, Sought::Update, Sought::Query];
    let (cluster, console, mut clients) = runs::start(rt, alloc, server(3), 4, &meeting, sought)?;
    let answered = call_at_once(&rt, alloc, &mut clients);
    let traces = cluster.join(&rt, alloc, console, clients)?;
    assert!(rt; answered == Some(true));
    assert!(rt; meeting.met() == 3);
    assert!(rt; audit(alloc, &traces).is_ok());
    Ok(())
}
