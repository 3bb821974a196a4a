//! The session calls and the tick, applied to a store.
//!
//! # Why
//! A session is tested against its client: to any other client it doesn't exist. Any client may
//! send a tick; that only client 0 does is a rule of the script's grammar.

ghost use Rattle.std.specs.Prelude.{◌≡◌, ◌<◌, ◌+◌, ◌||◌, not, nat_lt, length, IfOk, OnErr};
ghost use Rattle.ztree.specs.Sessions.{without_sessions};
ghost use Rattle.ztree.specs.Lawful.{AllNodes};
ghost use Rattle.ztree.specs.Room.{HasRoomForLosses};
ghost use Rattle.ztree.specs.declared.limits.TheConstants.{TICK_BOUND, ZXID_BOUND};
ghost use Rattle.zops.specs.support.Ready.{IsSteady, IsReady, StaysBounded, IsAsItWas};
ghost use Rattle.zops.specs.support.Ready.{KeepsLeft, CanRemove, RemovesNamed};
ghost use Rattle.zops.specs.support.Steps.{Makes, next_tick_result};
ghost use Rattle.zcalls.specs.Part.{is_gone};
ghost use Rattle.zcalls.specs.Step.{granted_timeout, due_next, update_result};
ghost use Rattle.zcalls.specs.declared.call.Update.TheVariants.{Open, Ping, Close};
ghost use Rattle.zcalls.specs.declared.reply.Reply.TheVariants as reply;

use zalloc::Memory;
use zcalls::{Refusal, Reply};
use zstore::{Id, Store};
use ztree::limits::MIN_TIMEOUT;
use ztree::{ClientId, SessionId};

/// Returns whether the session is gone for this client: it doesn't exist, or belongs to another
/// client.
pub(crate) fn is_gone(store: &Store, client: ClientId, session: SessionId) -> bool
    ensures { result ≡ is_gone store.now.tree.sessions client session }
{
    match store.session(session) {
        Some(found) => found.client != client,
        None => true,
    }
}

// Returns the timeout granted for the one asked for, where this is the greatest.
fn granted(greatest: u64, ticks: u64) -> u64
    ensures { result ≡ granted_timeout greatest ticks }
{
    if ticks < MIN_TIMEOUT {
        MIN_TIMEOUT
    } else if ticks > greatest {
        greatest
    } else {
        ticks
    }
}

/// Opens a session for a client that asks for a timeout of `ticks` ticks.
pub(crate) fn open(store: &mut Store, client: ClientId, ticks: u64) -> Result<Reply, Memory>
    requires { IsReady store.old }
    ensures done { IfOk result (
        Makes (update_result store.old.tree client (Open ticks)) store.new) }
    ensures left { StaysBounded store.old store.new }
    ensures err { OnErr result (IsAsItWas store.old store.new) }
{
    if store.sessions() >= store.limits().sessions {
        return Ok(Reply::Refused(Refusal::TooManySessions));
    }
    store.keeps_lawful();
    let timeout = granted(store.limits().timeout, ticks);
    store.open_session(client, timeout)?;
    store.raise();
    Ok(Reply::Opened(SessionId::of(store.zxid()), timeout))
}

/// Renews a client's session.
pub(crate) fn ping(store: &mut Store, client: ClientId, session: SessionId) -> Reply
    requires { IsSteady store.old }
    ensures done { (store.new.tree, result) ≡ update_result store.old.tree client (Ping session) }
    ensures left { StaysBounded store.old store.new }
{
    store.keeps_lawful();
    if !store.keep_alive(client, session) {
        return Reply::Refused(Refusal::SessionGone);
    }
    Reply::Pinged
}

/// Ends a client's session.
pub(crate) fn close(store: &mut Store, client: ClientId, session: SessionId) -> Reply
    requires { IsReady store.old }
    ensures done { (store.new.tree, result) ≡ update_result store.old.tree client (Close session) }
    ensures left { StaysBounded store.old store.new }
{
    if is_gone(store, client, session) {
        return Reply::Refused(Refusal::SessionGone);
    }
    store.keeps_lawful();
    store.end_session(session);
    store.raise();
    Reply::Closed
}

// Ends the sessions that expire at the next tick, by the next change.
fn end_all(store: &mut Store, ids: Vec<SessionId>)
    requires due { ids.items ≡ due_next store.old.tree }
    requires ready { IsReady store.old }
    ensures tree { store.new.tree ≡ without_sessions store.old.tree ids.items }
    ensures still { KeepsLeft store.old store.new }
    ensures given { store.new.given ≡ store.old.given }
{
    store.keeps_lawful();
    for id in ids {
        store.end_session(id);
    }
}

// Returns whether a tick changes nothing, given the numbers of sessions ended and nodes removed.
fn is_idle(ended: usize, removed: usize) -> bool
    ensures { result ≡ not (nat_lt 0 ended || nat_lt 0 removed) }
{
    ended == 0 && removed == 0
}

// Removes these nodes one after the other, by the next change.
fn remove_all(store: &mut Store, ids: Vec<Id>)
    requires named { CanRemove store.old ids.items }
    requires room { AllNodes (HasRoomForLosses (length ids.items)) store.old.tree.nodes }
    requires zxid { store.old.tree.zxid + 1 < ZXID_BOUND }
    ensures tree { RemovesNamed ids.items store.old store.new }
    ensures given { store.new.given ≡ store.old.given }
{
    for id in ids {
        store.drop_leaf(id);
    }
}

/// Advances the clock by one tick. It ends the sessions whose deadline is reached. Then it removes
/// the nodes that are due and had no children before the tick.
///
/// Only finding these allocates, and that comes first.
pub(crate) fn tick(store: &mut Store) -> Result<Reply, Memory>
    requires ready { IsReady store.old }
    requires time { store.old.tree.time + 1 < TICK_BOUND }
    ensures done { IfOk result (Makes (next_tick_result store.old.tree) store.new) }
    ensures left { StaysBounded store.old store.new }
    ensures err { OnErr result (IsAsItWas store.old store.new) }
{
    store.keeps_lawful();
    let next = store.now() + 1;
    let due = store.due(next)?;
    let Ok(stale) = store.stale(next) else {
        drop(due);
        return Err(Memory);
    };
    let ended = due.len();
    let removed = stale.len();
    end_all(store, due);
    remove_all(store, stale);
    store.advance();
    if is_idle(ended, removed) {
        return Ok(Reply::Ticked(store.now(), ended, removed));
    }
    store.raise();
    Ok(Reply::Ticked(store.now(), ended, removed))
}
