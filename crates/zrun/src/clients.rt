//! The clients of a run, by number.
//!
//! # Why
//!
//! Clients are taken out by number and put back, so no number occurs twice and `put` takes no
//! memory. `put` requires a client of this run (`BelongsTo`), which `take` ensures and each call
//! preserves (`SameClient`).

ghost use Rattle.std.specs.Prelude.{◌≡◌, ◌≢◌, ◌<◌, ℕ, IfOk, IfSome, None, Some, is_some, length};
ghost use Rattle.zthreads.specs.Callers.{caller_id};
ghost use Rattle.zthreads.specs.Endpoints.{Each};
ghost use Rattle.zrun.specs.Clients.{AreIn, BelongsTo, IsClientOf, number_of};

use crate::client::Client;
use crate::posts::ClientPost;
use crate::supply::HaltPost;
use std::alloc::Global;
use std::snapshot::Snapshot;
use zalloc::Memory;
use zcalls::ClientId;

/// The clients of one run that aren't taken out. Each is at the index of its number.
#[derive(Drop)]
pub struct Clients {
    pub(crate) places: Vec<Option<Client>>,
    // the clients as they were made
    pub(crate) run: Snapshot<Vec<ClientPost>>,
    ghost many: { length places.items ≡ length run.value.items },
    ghost own: { AreIn run.value.items places.items },
}

impl Clients {
    ghost use Rattle.zrun.specs.Members.{client_at, clients_run, HasAll};

    /// Returns all clients of a run.
    pub(crate) fn new(alloc: Global, posts: Vec<ClientPost>) -> Result<Clients, Memory>
        requires { Each (λ i p. caller_id p.caller ≡ i) posts.items }
        ensures run { IfOk result (λ clients. clients_run clients ≡ posts.items) }
        ensures all { IfOk result (λ clients. HasAll (length posts.items) clients) }
    {
        let run = Snapshot::of(&posts);
        let mut places = Vec::with_capacity(alloc, posts.len())?;
        for post in posts {
            places.push(Some(introduce(post)))?;
        }
        Ok(Clients { places, run })
    }

    /// Returns whether the client of this number is here.
    pub fn has(&self, id: ClientId) -> bool
        ensures { result ≡ is_some (client_at self.now id) }
    {
        let place = id.number() as usize;
        if place >= self.places.len() {
            return false;
        }
        self.places[place].is_some()
    }

    /// Takes out the client of this number, if it is here.
    pub fn take(&mut self, id: ClientId) -> Option<Client>
        ensures found { result ≡ client_at self.old id }
        ensures own { IfSome result (IsClientOf (clients_run self.old) id) }
        ensures gone { client_at self.new id ≡ None }
        ensures others { (i : ℕ) → i ≢ id → client_at self.new i ≡ client_at self.old i }
        ensures run { clients_run self.new ≡ clients_run self.old }
    {
        let place = id.number() as usize;
        if place >= self.places.len() {
            return None;
        }
        self.places[place].take()
    }

    /// Puts a client back.
    pub fn put(&mut self, client: Client)
        requires { BelongsTo (clients_run self.old) client }
        ensures back { client_at self.new (number_of client) ≡ Some client }
        ensures others { (i : ℕ) → i ≢ number_of client
            → client_at self.new i ≡ client_at self.old i }
        ensures run { clients_run self.new ≡ clients_run self.old }
    {
        let place = client.id().number() as usize;
        drop(self.places[place].replace(client));
    }
}

// Returns the client that is made of this.
fn introduce(post: ClientPost) -> Client
    ensures { result.caller ≡ post.caller }
{
    let ClientPost {
        caller,
        halt: HaltPost { halt, seat, bells },
    } = post;
    Client {
        caller,
        halt,
        seat,
        bells,
    }
}
