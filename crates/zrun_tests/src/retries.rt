//! A call that has no reply is sent again.

ghost use Rattle.std.specs.Prelude.{◌≡◌};
ghost use Rattle.zrun.specs.Clients.{SameClient};
ghost use Rattle.zrun.specs.Members.{clients_run};

use crate::calls::{ask, create, set};
use crate::gates::{Meeting, Sought};
use crate::runs;
use std::alloc::Global;
use std::test::Fail;
use zaudit::audit;
use zprotocol::traces::{Act, Trace};
use zrun::{Client, Clients, Patience, Unanswered};
use ztesting::{client, server};

// How often a call is sent again that has no reply.
const RETRIES: u64 = 3;

// Asks for what the server doesn't answer while it is held, and then lets it continue. Whether
// there was no answer.
fn ask_in_vain(client: &mut Client, alloc: Global, meeting: &Meeting) -> Option<bool>
    ensures { SameClient client.old client.new }
{
    if ask(client, create(alloc, "/a")?).is_none() {
        return None;
    }
    let patience = Patience {
        turns: 10,
        retries: RETRIES,
    };
    let result = client.ask(set(alloc, "/a")?, patience);
    meeting.come();
    match result {
        Ok(reply) => {
            drop(reply);
            Some(false)
        }
        Err(fault) => Some(fault == Unanswered::NoAnswer),
    }
}

// The same, by one of the clients.
#[tactic(auto, using(zrun::proofs::Still::still_belongs))]
fn ask_by_one(clients: &mut Clients, alloc: Global, meeting: &Meeting) -> Option<bool>
    ensures { clients_run clients.new ≡ clients_run clients.old }
{
    let Some(mut one) = clients.take(client(0)) else {
        return None;
    };
    let done = ask_in_vain(&mut one, alloc, meeting);
    clients.put(one);
    done
}

// How often the client sent a call again.
fn retries_in(trace: &Trace) -> u64 {
    let mut retries = 0u64;
    for place in 0..trace.events.len() {
        if let Act::Retried = &trace.events[place].act {
            retries = retries.saturating_add(1);
        }
    }
    retries
}

#[test]
fn a_call_is_sent_again(rt: HostRuntime) -> Result<(), Fail> {
    let alloc = rt.alloc();
    let meeting = Meeting::new(alloc, 2)?;
    let sought = [Sought::SecondSubmit, Sought::Nothing, Sought::Nothing];
    let (cluster, console, mut clients) = runs::start(rt, alloc, server(1), 1, &meeting, sought)?;
    let done = ask_by_one(&mut clients, alloc, &meeting);
    let traces = cluster.join(&rt, alloc, console, clients)?;
    assert!(rt; done == Some(true));
    assert!(rt; traces.clients.len() == 1 && retries_in(&traces.clients[0].trace) >= RETRIES);
    assert!(rt; audit(alloc, &traces).is_ok());
    Ok(())
}
