//! The state machine of one server.
//!
//! # Why
//! An entry is counted before it is done, since running out of memory ends the machine anyway. The
//! Ids given out are at most 1,024 for each entry, and one for each node that a restored machine
//! began with.

ghost use Rattle.zops.specs.declared.limits.TheConstants.{MAX_APPLIED};
ghost use Rattle.zops.specs.support.Ready.{IsSteady, StaysBounded};
ghost use Rattle.zops.specs.support.Steps.{HasFewParts, IsEntered};
ghost use Rattle.std.specs.Prelude.{◌≡◌, ◌<◌, ◌≤◌, IfOk, OnOk, OnErr, IsErr, true, false};

use crate::kept::CachedReplies;
use crate::query::answer;
use crate::update::update;
use std::alloc::Global;
use std::marker::Model;
use zalloc::Memory;
use zcalls::{Entry, Query, Reply, Update};
use zstore::Store;
use ztree::TreeLimits;

/// A state machine: the tree, the last reply to each client, and the calls on them.
///
/// Once `apply` has run out of memory, every later `apply`, `ask` and copy returns `Memory`, and
/// the tree is never read again.
#[derive(Drop)]
pub struct Machine {
    pub(crate) alloc: Global,
    pub(crate) store: Store,
    pub(crate) kept: CachedReplies,
    pub(crate) applied: u64,
    pub(crate) is_broken: bool,
}

impl Model for Machine {
    ghost use Rattle.zops.specs.Machine.{MachineView};
    ghost use Rattle.zops.specs.support.Codes.{coded_machine_view};

    ghost Value = { MachineView };

    ghost coded = { coded_machine_view };

    ghost use Rattle.zops.specs.support.Fields.{view_of};
    ghost use Rattle.zops.specs.support.Ready.{IsSound};

    ghost view = { view_of };

    ghost invariant = { λ m. IsSound m.store m.applied m.is_broken };
}

impl Machine {
    ghost use Rattle.zcalls.specs.Step.{query_reply};
    ghost use Rattle.zops.specs.Machine.{opening_machine, machine_within, entry_result};
    ghost use Rattle.ztree.specs.Limits.{AreLimits};
    ghost use Rattle.ztree.specs.Lawful.{IsLawful, HasPaths};
    ghost use Rattle.zcalls.specs.Bounds.{IsBounded};

    /// Makes a machine in the initial state of the profile: the initial tree, and no cached reply.
    pub fn new(alloc: Global) -> Result<Machine, Memory>
        ensures opening { IfOk result (λ m. m
            ≡ record { state = opening_machine; is_broken = false }) }
        ensures lawful { IfOk result (λ m. IsLawful m.state.service.plain) }
        ensures paths { IfOk result (λ m. HasPaths m.state.service.plain.nodes) }
        ensures bounded { IfOk result (λ m. IsBounded m.state.service.plain) }
    {
        Machine::within(alloc, TreeLimits::profile())
    }

    /// Makes a machine in the initial state within these limits: the initial tree, and no cached
    /// reply.
    pub fn within(alloc: Global, limits: TreeLimits) -> Result<Machine, Memory>
        requires { AreLimits limits }
        ensures opening { IfOk result (λ m. m
            ≡ record { state = machine_within limits; is_broken = false }) }
        ensures lawful { IfOk result (λ m. IsLawful m.state.service.plain) }
        ensures paths { IfOk result (λ m. HasPaths m.state.service.plain.nodes) }
        ensures bounded { IfOk result (λ m. IsBounded m.state.service.plain) }
    {
        let store = Store::within(alloc, limits)?;
        store.keeps_lawful();
        store.keeps_paths();
        let Ok(kept) = CachedReplies::new(alloc) else {
            drop(store);
            return Err(Memory);
        };
        Ok(Machine {
            alloc,
            store,
            kept,
            applied: 0,
            is_broken: false,
        })
    }

    /// An invariant of every machine: its tree is lawful, each key of it is a path, and its numbers
    /// are bounded. The function does nothing.
    pub fn keeps_lawful(&self)
        ensures lawful { IsLawful self.now.state.service.plain }
        ensures paths { HasPaths self.now.state.service.plain.nodes }
        ensures bounded { IsBounded self.now.state.service.plain }
    {
        self.store.keeps_lawful();
        self.store.keeps_paths();
    }

    /// Returns the number of entries applied, including those that were refused or didn't act.
    pub fn applied(&self) -> u64
        ensures applied { result ≡ self.now.state.applied }
        ensures few { result ≤ MAX_APPLIED }
        ensures lawful { IsLawful self.now.state.service.plain }
    {
        self.store.keeps_lawful();
        self.applied
    }

    /// Applies an entry by the entry step over the plain tree. A number above its client's last one
    /// acts, and its reply is cached. A repeated number returns the cached reply; any other returns
    /// nothing.
    #[tactic(auto, unfolding(crate::specs::Machine::entry_result))]
    pub fn apply(&mut self, entry: &Entry) -> Result<Option<Reply>, Memory>
        requires { self.old.state.applied < MAX_APPLIED }
        ensures ok { IfOk result (λ reply. (self.new.state, reply)
            ≡ entry_result self.old.state entry.now) }
        ensures sound { OnOk result ((self.old.is_broken ≡ false) × (self.new.is_broken ≡ false)) }
        ensures broken { OnErr result (self.new.is_broken ≡ true) }
        ensures stays { self.old.is_broken ≡ true → IsErr result }
        ensures lawful { OnOk result (IsLawful self.new.state.service.plain) }
        ensures paths { OnOk result (HasPaths self.new.state.service.plain.nodes) }
        ensures bounded { OnOk result (IsBounded self.new.state.service.plain) }
    {
        if self.is_broken {
            return Err(Memory);
        }
        self.applied += 1;
        match enter(self.alloc, &mut self.store, &mut self.kept, entry) {
            Ok(reply) => {
                self.store.keeps_lawful();
                self.store.keeps_paths();
                Ok(reply)
            }
            Err(memory) => {
                self.is_broken = true;
                Err(memory)
            }
        }
    }

    /// Answers a query, and changes nothing.
    pub fn ask(&self, query: &Query) -> Result<Reply, Memory>
        ensures ok { IfOk result (λ reply. reply
            ≡ query_reply self.now.state.service.plain query.now) }
        ensures broken { self.now.is_broken ≡ true → IsErr result }
        ensures lawful { OnOk result (IsLawful self.now.state.service.plain) }
        ensures paths { OnOk result (HasPaths self.now.state.service.plain.nodes) }
        ensures bounded { OnOk result (IsBounded self.now.state.service.plain) }
    {
        if self.is_broken {
            Err(Memory)
        } else {
            self.store.keeps_lawful();
            self.store.keeps_paths();
            answer(&self.store, query)
        }
    }

    /// Returns an independent copy in the same state, or `Memory`.
    pub fn copy(&self) -> Result<Machine, Memory>
        ensures same { IfOk result (λ copy. copy ≡ self.now) }
        ensures broken { self.now.is_broken ≡ true → IsErr result }
        ensures lawful { OnOk result (IsLawful self.now.state.service.plain) }
        ensures paths { OnOk result (HasPaths self.now.state.service.plain.nodes) }
        ensures bounded { OnOk result (IsBounded self.now.state.service.plain) }
    {
        if self.is_broken {
            return Err(Memory);
        }
        self.store.keeps_lawful();
        self.store.keeps_paths();
        let kept = self.kept.copied(self.alloc)?;
        let Ok(store) = self.store.copy() else {
            drop(kept);
            return Err(Memory);
        };
        Ok(Machine {
            alloc: self.alloc,
            store,
            kept,
            applied: self.applied,
            is_broken: self.is_broken,
        })
    }
}

// Applies an entry by the entry step: if it acts, its number and reply are cached. After `Memory`
// the tree may have changed.
#[tactic(auto, unfolding(zcalls::specs::Cached::entry_step))]
fn enter(
    alloc: Global,
    store: &mut Store,
    kept: &mut CachedReplies,
    entry: &Entry,
) -> Result<Option<Reply>, Memory>
    requires { IsSteady store.old }
    ensures done { IfOk result (IsEntered entry.now store.old kept.old store.new kept.new) }
    ensures left { StaysBounded store.old store.new }
{
    keeps_few_parts(&entry.update);
    let number = entry.number.number();
    let last = kept.last_number(entry.client);
    if number <= last {
        return kept.reply(alloc, entry.client, entry.number);
    }
    let reply = update(alloc, store, entry.client, &entry.update)?;
    let Ok(copy) = reply.copied(alloc) else {
        drop(reply);
        return Err(Memory);
    };
    kept.keep(entry.client, entry.number, copy);
    Ok(Some(reply))
}

// Brings into the proof that a multi has few parts.
fn keeps_few_parts(update: &Update)
    ensures { HasFewParts update.now }
{
    if let Update::Multi(parts) = update {
        let _ = parts.as_slice();
    }
}
