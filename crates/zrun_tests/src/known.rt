//! What a client knows of the chain.

ghost use Rattle.std.specs.Prelude.{◌≡◌};
ghost use Rattle.zrun.specs.Clients.{SameClient};
ghost use Rattle.zrun.specs.Members.{clients_run};

use crate::halts::halt_and_hear;
use crate::runs::start_plain;
use std::test::Fail;
use zaudit::audit;
use zprotocol::ServerId;
use zrun::{Client, Clients};
use ztesting::{client, server};

// Returns whether it knows these ends of the chain.
fn knows(client: &Client, head: ServerId, tail: ServerId) -> bool {
    (client.head() == Some(head)) & (client.tail() == Some(tail))
}

// Halts the first one of two servers. Returns whether the client then knows that the second one is
// alone.
fn know_the_second(client: &mut Client) -> bool
    ensures { SameClient client.old client.new }
{
    let before = knows(client, server(1), server(2));
    let heard = halt_and_hear(client);
    before & heard & knows(client, server(2), server(2))
}

// The same, by one of the clients.
#[tactic(auto, using(zrun::proofs::Still::still_belongs))]
fn know_by_one(clients: &mut Clients) -> bool
    ensures { clients_run clients.new ≡ clients_run clients.old }
{
    let Some(mut one) = clients.take(client(1)) else {
        return false;
    };
    let known = know_the_second(&mut one);
    clients.put(one);
    known
}

#[test]
fn a_client_knows_the_new_head(rt: HostRuntime) -> Result<(), Fail> {
    let alloc = rt.alloc();
    let (cluster, console, mut clients) = start_plain(rt, alloc, server(2), 2)?;
    let known = know_by_one(&mut clients);
    let traces = cluster.join(&rt, alloc, console, clients)?;
    assert!(rt; known);
    assert!(rt; audit(alloc, &traces).is_ok());
    Ok(())
}
