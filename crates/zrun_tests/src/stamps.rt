//! A stamp that is passed on.

ghost use Rattle.std.specs.Prelude.{◌≡◌};
ghost use Rattle.zrun.specs.Clients.{SameClient};
ghost use Rattle.zrun.specs.Members.{clients_run};

use crate::calls::{ask, create, exists};
use crate::runs::start_plain;
use std::alloc::Global;
use std::test::Fail;
use zaudit::audit;
use zcalls::Call;
use zprotocol::world::CallEvent;
use zrun::{Client, Clients};
use ztesting::{client, server};

// The index of the answer to the client's call, and that of the beginning of its next one.
fn places(history: &[CallEvent], answered: u8, began: u8) -> (Option<usize>, Option<usize>) {
    let mut answer = None;
    let mut begin = None;
    for place in 0..history.len() {
        match &history[place] {
            CallEvent::Answer(client, _, _) if client.number() == answered => answer = Some(place),
            CallEvent::Begin(client, _, _) if client.number() == began => begin = Some(place),
            _ => {}
        }
    }
    (answer, begin)
}

// The second client learns of the first one's stamp, between its answer and a call of its own.
// Whether both were answered.
#[tactic(auto, using(zrun::proofs::Still::still_belongs))]
fn pass_on(clients: &mut Clients, alloc: Global) -> Option<bool>
    ensures { clients_run clients.new ≡ clients_run clients.old }
{
    let Some(mut one) = clients.take(client(1)) else {
        return None;
    };
    let created = ask_for(&mut one, create(alloc, "/a"));
    let stamp = one.stamp();
    clients.put(one);
    let Some(mut two) = clients.take(client(2)) else {
        return None;
    };
    two.learn(stamp);
    let found = ask_for(&mut two, exists(alloc, "/a"));
    clients.put(two);
    Some(created? && found?)
}

// Whether the call is answered.
fn ask_for(client: &mut Client, call: Option<Call>) -> Option<bool>
    ensures { SameClient client.old client.new }
{
    Some(ask(client, call?).is_some())
}

#[test]
fn learnt(rt: HostRuntime) -> Result<(), Fail> {
    let alloc = rt.alloc();
    let (cluster, console, mut clients) = start_plain(rt, alloc, server(2), 3)?;
    let done = pass_on(&mut clients, alloc);
    let traces = cluster.join(&rt, alloc, console, clients)?;
    assert!(rt; done == Some(true));
    let history = audit(alloc, &traces)?;
    let (answer, begin) = places(&history, 1, 2);
    assert!(rt; answer.is_some() && begin.is_some() && answer < begin);
    Ok(())
}
