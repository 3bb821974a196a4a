//! A client that calls once, on a thread of its own.

ghost use Rattle.std.specs.Prelude.{◌≡◌, IfSome};
ghost use Rattle.zrun.specs.Clients.{BelongsTo, SameClient};
ghost use Rattle.zrun.specs.Members.{clients_run};
ghost use Rattle.zrun.specs.Promised.{promised_client};

use std::thread;
use std::thread::{PromisedHandle, Threads};
use zcalls::{Call, ClientId};
use zrun::{Client, Clients, HandsBack};

/// A thread that has a client.
pub type Apart = PromisedHandle<(Client, bool), HandsBack>;

/// Starts a thread for the client of this number, which makes the call.
pub fn start<R: Threads>(rt: &R, clients: &mut Clients, id: ClientId, call: Call) -> Option<Apart>
    ensures run { clients_run clients.new ≡ clients_run clients.old }
    ensures own { IfSome result (λ apart.
        BelongsTo (clients_run clients.old) (promised_client apart.promise)) }
{
    let Some(client) = clients.take(id) else {
        drop(call);
        return None;
    };
    let promise = HandsBack::of(&client);
    match thread::spawn_with(
        rt,
        promise,
        move || -> (Client, bool)
            ensures { SameClient client result.0 }
        { call_once(client, call) },
    ) {
        Ok(apart) => Some(apart),
        Err(_) => None,
    }
}

/// Ends the thread, takes its client back, and returns whether its call was answered.
#[tactic(auto, using(zrun::proofs::Still::still_belongs))]
pub fn end<R: Threads>(rt: &R, clients: &mut Clients, apart: Apart) -> bool
    requires { BelongsTo (clients_run clients.old) (promised_client apart.promise) }
    ensures { clients_run clients.new ≡ clients_run clients.old }
{
    let (client, is_answered) = apart.join(rt);
    clients.put(client);
    is_answered
}

// Makes the call.
fn call_once(mut client: Client, call: Call) -> (Client, bool)
    ensures { SameClient client result.0 }
{
    let is_answered = client.call(call, 1_000_000_000).is_ok();
    (client, is_answered)
}
