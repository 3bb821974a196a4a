//! The cached replies: the last one to each client, with its call number.
//!
//! # Why
//! There is a position for each of the 32 clients, allocated with the machine. So a lookup is an
//! index, and caching a reply allocates nothing.

ghost use Rattle.std.specs.Prelude.{◌≡◌, ◌<◌, ◌≤◌, ◌++◌, [], ◌∷◌, length, None, Some, IfNone, IfOk, IfSome, OnOk};
ghost use Rattle.std.specs.FinMap.{empty, get, insert, keys};
ghost use Rattle.ztree.specs.declared.limits.TheConstants.{MAX_CLIENTS};
ghost use Rattle.zcalls.specs.Cached.{last_of, cached_reply};
ghost use Rattle.zops.specs.Restored.{IsOfUpdate};
ghost use Rattle.zops.specs.support.Places.{clients_from};

use std::alloc::Global;
use std::marker::Model;
use zalloc::Memory;
use zcalls::{CallNumber, Reply};
use ztree::ClientId;
use ztree::limits::MAX_CLIENTS;

// A cached reply with its call number.
#[derive(Drop)]
struct Cached {
    number: CallNumber,
    reply: Reply,
}

impl Model for Cached {
    ghost use Rattle.zcalls.specs.Cached as kept;
    ghost use Rattle.zops.specs.support.Codes.{coded_kept};
    ghost use Rattle.zops.specs.Restored.{IsOfUpdate};

    ghost Value = { kept.Cached };

    ghost coded = { coded_kept };

    ghost view = { λ k. record { number = k.number; reply = k.reply } };

    ghost invariant = { λ k. IsOfUpdate k.reply };
}

impl Cached {
    // Returns a copy.
    fn copied(&self, alloc: Global) -> Result<Cached, Memory>
        ensures { IfOk result (λ copy. copy ≡ self.now) }
    {
        Ok(Cached {
            number: self.number,
            reply: self.reply.copied(alloc)?,
        })
    }
}

/// The last reply to each client, with its call number, indexed by the client's number.
#[derive(Drop)]
pub(crate) struct CachedReplies {
    places: Vec<Option<Cached>>,
}

impl Model for CachedReplies {
    ghost use Rattle.std.specs.Ordering.{nat_cmp};
    ghost use Rattle.std.specs.Prelude.{◌≡◌, length};
    ghost use Rattle.std.specs.FinMap as finite;
    ghost use Rattle.ztree.specs.declared.limits.TheConstants.{MAX_CLIENTS};
    ghost use Rattle.zcalls.specs.Cached as kept;
    ghost use Rattle.zops.specs.support.Codes.{coded_replies};
    ghost use Rattle.zops.specs.support.Places.{replies_in};

    ghost Value = { finite.FinMap nat_cmp kept.Cached };

    ghost coded = { coded_replies };

    ghost view = { λ k. replies_in k.places.items };

    ghost invariant = { λ k. length k.places.items ≡ MAX_CLIENTS };
}

impl CachedReplies {
    /// Returns a cache without replies, or `Memory`. Allocates the room for every client, so that
    /// caching a reply allocates nothing.
    pub(crate) fn new(alloc: Global) -> Result<CachedReplies, Memory>
        ensures { IfOk result (λ kept. kept ≡ empty) }
    {
        let mut places = Vec::with_capacity(alloc, MAX_CLIENTS as usize)?;
        for _ in 0..MAX_CLIENTS {
            places.push(None)?;
        }
        Ok(CachedReplies { places })
    }

    /// Returns the number of the client's last call that acted, or 0 if none did.
    pub(crate) fn last_number(&self, client: ClientId) -> u64
        ensures { result ≡ last_of (get self.now client) }
    {
        match &self.places[client.number() as usize] {
            Some(kept) => kept.number.number(),
            None => 0,
        }
    }

    /// Returns a copy of the client's cached reply if it belongs to this call, else `None`.
    pub(crate) fn reply(
        &self,
        alloc: Global,
        client: ClientId,
        number: CallNumber,
    ) -> Result<Option<Reply>, Memory>
        ensures { IfOk result (λ reply. reply ≡ cached_reply number (get self.now client)) }
    {
        let Some(kept) = &self.places[client.number() as usize] else {
            return Ok(None);
        };
        if number.number() != kept.number.number() {
            return Ok(None);
        }
        Ok(Some(kept.reply.copied(alloc)?))
    }

    /// Returns the client's cached reply with the number of its call, if there is one.
    pub(crate) fn get(&self, client: ClientId) -> Option<(CallNumber, &Reply)>
        ensures kept { IfSome result (λ kept. get self.now client
            ≡ Some (record { number = kept.0; reply = kept.1.now })) }
        ensures of_update { IfSome result (λ kept. IsOfUpdate kept.1.now) }
        ensures none { IfNone result (get self.now client ≡ None) }
    {
        match &self.places[client.number() as usize] {
            Some(kept) => Some((kept.number, &kept.reply)),
            None => None,
        }
    }

    /// Returns the clients with a cached reply in their order, or `Memory`.
    pub(crate) fn clients(&self, alloc: Global) -> Result<Vec<ClientId>, Memory>
        ensures clients { IfOk result (λ clients. clients.items ≡ keys self.now) }
        ensures few { IfOk result (λ clients. length clients.items ≤ MAX_CLIENTS) }
    {
        clients_of(alloc, &self.places)
    }

    /// Caches the reply to this call of the client, and drops the one before it.
    pub(crate) fn keep(&mut self, client: ClientId, number: CallNumber, reply: Reply)
        requires { IsOfUpdate reply }
        ensures { self.new ≡ insert self.old client (record { number = number; reply = reply }) }
    {
        self.places[client.number() as usize] = Some(Cached { number, reply });
    }

    /// Returns a copy of the cached replies, or `Memory`.
    pub(crate) fn copied(&self, alloc: Global) -> Result<CachedReplies, Memory>
        ensures { IfOk result (λ copy. copy ≡ self.now) }
    {
        let places = copied_places(alloc, &self.places)?;
        Ok(CachedReplies { places })
    }
}

// Returns the clients that have a cached reply.
fn clients_of(alloc: Global, places: &[Option<Cached>]) -> Result<Vec<ClientId>, Memory>
    requires { length places.now ≡ MAX_CLIENTS }
    ensures clients { IfOk result (λ clients. clients.items ≡ clients_from 0 places.now) }
    ensures few { IfOk result (λ clients. length clients.items ≤ MAX_CLIENTS) }
{
    let mut clients = Vec::new(alloc);
    for number in 0..MAX_CLIENTS {
        add_client(&mut clients, number, &places[number as usize])?;
    }
    Ok(clients)
}

// Adds the client with this number, if it has a cached reply.
fn add_client(clients: &mut Vec<ClientId>, number: u8, place: &Option<Cached>) -> Result<(), Memory>
    requires { number < MAX_CLIENTS }
    ensures { OnOk result
        (clients.new.items ≡ clients.old.items ++ clients_from number (place.now ∷ [])) }
{
    if place.is_none() {
        return Ok(());
    }
    match ClientId::new(number) {
        Some(client) => {
            clients.push(client)?;
            Ok(())
        }
        None => unreachable!(),
    }
}

// Returns a copy of these positions.
fn copied_places(alloc: Global, places: &[Option<Cached>]) -> Result<Vec<Option<Cached>>, Memory>
    ensures { IfOk result (λ copy. copy.items ≡ places.now) }
{
    let mut copy = Vec::with_capacity(alloc, places.len())?;
    for place in places {
        copy.push(copied_place(alloc, place)?)?;
    }
    Ok(copy)
}

// Returns a copy of one position.
fn copied_place(alloc: Global, place: &Option<Cached>) -> Result<Option<Cached>, Memory>
    ensures { IfOk result (λ copy. copy ≡ place.now) }
{
    match place {
        Some(kept) => Ok(Some(kept.copied(alloc)?)),
        None => Ok(None),
    }
}
