//! What threads promise of what they return.

ghost use Rattle.std.specs.Prelude.{◌≡◌};
ghost use Rattle.zthreads.specs.Endpoints.{SameEndpoint};
ghost use Rattle.zthreads.specs.Owned.{master_endpoint, server_endpoint};
ghost use Rattle.zrun.specs.Clients.{SameClient};
ghost use Rattle.zrun.specs.Ticks.{CountsTicks};

use crate::client::Client;
use crate::ticks::Ticks;
use std::snapshot::Snapshot;
use std::thread::Promise;
use zchannels::console::Inbox;
use zthreads::{MasterThread, ServerThread};

/// The server that is returned has the endpoint of the one that was given.
#[derive(Drop)]
pub(crate) struct SameServer(pub(crate) Snapshot<ServerThread>);

impl Promise<ServerThread> for SameServer {
    ghost kept_by = { λ p r. SameEndpoint (server_endpoint p.0.value) (server_endpoint r) };
}

/// The master that is returned has the endpoint of the one that was given.
#[derive(Drop)]
pub(crate) struct SameMaster(pub(crate) Snapshot<MasterThread>);

impl Promise<(MasterThread, Inbox)> for SameMaster {
    ghost kept_by = { λ p r. SameEndpoint (master_endpoint p.0.value) (master_endpoint r.0) };
}

/// The client that is returned is the one that was given. A thread that is given a client can
/// promise this, whatever else it returns.
#[derive(Drop)]
pub struct HandsBack(pub(crate) Snapshot<Client>);

impl HandsBack {
    ghost use Rattle.zrun.specs.Promised.{promised_client};

    /// Returns the promise to return this client.
    pub fn of(client: &Client) -> HandsBack
        ensures { promised_client result ≡ client.now }
    {
        HandsBack(Snapshot::of(client))
    }
}

impl<T> Promise<(Client, T)> for HandsBack {
    ghost kept_by = { λ p r. SameClient p.0.value r.0 };
}

/// The client that a ticker returns is the one that it was given, and invoked at least as many
/// calls as ticks are counted.
#[derive(Drop)]
pub(crate) struct KeepsTicking(pub(crate) Snapshot<Client>);

impl Promise<(Client, Ticks)> for KeepsTicking {
    ghost kept_by = { λ p r. SameClient p.0.value r.0 × CountsTicks p.0.value r.0 r.1 };
}
