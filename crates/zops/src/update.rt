//! Updates, applied to a store by the sequential step.
//!
//! # Why
//! A multi rolls back to a savepoint if a part is refused. So its cost depends on what it changes,
//! not on the size of the tree.

ghost use Rattle.std.specs.Prelude.{◌≡◌, IfOk, OnErr};
ghost use Rattle.zcalls.specs.declared.call.Update.TheVariants.{Multi as MultiOf};
ghost use Rattle.zcalls.specs.Step.{step, update_result, is_exhausted};
ghost use Rattle.zops.specs.support.Ready.{IsSteady, IsReady, StaysBounded, IsAsItWas};
ghost use Rattle.zops.specs.support.Steps.{Makes};
ghost use Rattle.zops.specs.support.Stops.{IsHaltAnswered};

use crate::change::{create, delete, set, set_acl};
use crate::run::run;
use crate::session_calls::{close, open, ping, tick};
use crate::stop::{Halt, Stop};
use std::alloc::Global;
use zalloc::Memory;
use zcalls::{Multi, Refusal, Replies, Reply, Update};
use zstore::Store;
use ztree::ClientId;
use ztree::limits::{TICK_BOUND, ZXID_BOUND};

/// Does an update. After `Memory` the tree is unchanged.
#[tactic(auto, unfolding(zcalls::specs::Step::step))]
pub(crate) fn update(
    alloc: Global,
    store: &mut Store,
    client: ClientId,
    update: &Update,
) -> Result<Reply, Memory>
    requires { IsSteady store.old }
    ensures done { IfOk result (Makes (step store.old.tree client update.now) store.new) }
    ensures left { StaysBounded store.old store.new }
    ensures err { OnErr result (IsAsItWas store.old store.new) }
{
    if is_exhausted(store, update) {
        return Ok(Reply::Refused(Refusal::Exhausted));
    }
    let did = match update {
        Update::Create(wanted) => create(alloc, store, client, wanted),
        Update::Delete(wanted) => delete(store, wanted),
        Update::SetData(wanted) => set(store, wanted),
        Update::SetAcl(wanted) => set_acl(store, wanted),
        Update::Multi(parts) => return multi(alloc, store, client, parts),
        Update::Open(ticks) => return open(store, client, *ticks),
        Update::Ping(session) => return Ok(ping(store, client, *session)),
        Update::Close(session) => return Ok(close(store, client, *session)),
        Update::Tick => return tick(store),
    };
    match did {
        Ok(did) => {
            store.raise();
            Ok(Reply::from(did))
        }
        Err(Stop::Refused(refusal)) => Ok(Reply::Refused(refusal)),
        Err(Stop::Memory) => Err(Memory),
    }
}

// Returns whether no further zxid is left for the update, or no further tick.
fn is_exhausted(store: &Store, update: &Update) -> bool
    requires { IsSteady store.now }
    ensures { result ≡ is_exhausted store.now.tree update.now }
{
    match update {
        Update::Ping(_) => false,
        Update::Tick if store.now() + 1 >= TICK_BOUND => true,
        Update::Tick
        | Update::Create(_)
        | Update::Delete(_)
        | Update::SetData(_)
        | Update::SetAcl(_)
        | Update::Multi(_)
        | Update::Open(_)
        | Update::Close(_) => store.zxid().number() + 1 >= ZXID_BOUND,
    }
}

// Does the parts of a multi from a savepoint on, and rolls back if one is refused or memory runs
// out.
fn multi(alloc: Global, store: &mut Store, client: ClientId, parts: &Multi) -> Result<Reply, Memory>
    requires { IsReady store.old }
    ensures done { IfOk result
        (Makes (update_result store.old.tree client (MultiOf parts.now)) store.new) }
    ensures left { StaysBounded store.old store.new }
    ensures err { OnErr result (IsAsItWas store.old store.new) }
{
    let parts = parts.as_slice();
    store.mark(2 * parts.len())?;
    match run(alloc, store, client, parts) {
        Ok(replies) => {
            store.raise();
            Ok(Reply::Multi(Replies::new(replies)))
        }
        Err(halt) => {
            store.back();
            halted(halt)
        }
    }
}

// Returns the reply, or the error, when not all the parts were done.
fn halted(halt: Halt) -> Result<Reply, Memory>
    ensures { IsHaltAnswered halt result }
{
    match halt {
        Halt::Refused(number, refusal) => Ok(Reply::MultiRefused(number, refusal)),
        Halt::Memory => Err(Memory),
    }
}
