//! A tree in memory.
//!
//! # Why
//!
//! A session belongs to the client that opened it. All calls are client 0's, each under the next
//! number, and the front distinguishes sessions itself.

ghost use Rattle.std.specs.Prelude.{◌≡◌, true, false, IfOk, IfErr, IsErr, OnErr, OnOk};
ghost use Rattle.ztree.specs.Limits.{AreLimits};
ghost use Rattle.ztree.specs.Tree.{opening_tree, opening_within};
ghost use Rattle.zcalls.specs.declared.call.Call.TheVariants.{Update as Called};
ghost use Rattle.zprotocol.specs.world.FromTree.{CanStart};
ghost use Rattle.zprotocol.specs.world.PlainTree.{serve};
ghost use Rattle.zstore.specs.Limiting.{IsFaultOf};
ghost use Rattle.zstore.specs.Restored.{with_limits, FitsWithin};
ghost use Rattle.ztree_service.specs.Machines.{tree_in, IsBare};

use crate::counts::Counts;
use crate::service::TreeService;
use crate::step::step;
use std::alloc::Global;
use std::marker::Model;
use zalloc::Memory;
use zcalls::{Query, Reply, Update};
use zops::{LimitFault, Machine};
use zpath::Path;
use ztree::{Session, SessionId, TreeLimits, Zxid};

/// A tree in memory, which serves calls.
///
/// After `apply` has run out of memory, each call returns `Memory`.
#[derive(Drop)]
pub struct LocalTree {
    alloc: Global,
    // All updates are client 0's, each under the next number.
    machine: Machine,
    is_broken: bool,
}

impl Model for LocalTree {
    ghost use Rattle.ztree_service.specs.Local.{LocalTreeView};
    ghost use Rattle.ztree_service.specs.support.Codes.{coded_local_tree};
    ghost use Rattle.ztree_service.specs.support.Tables.{view_in, IsSound};

    ghost Value = { LocalTreeView };

    ghost coded = { coded_local_tree };

    ghost view = { λ t. view_in t.machine t.is_broken };

    ghost invariant = { λ t. IsSound t.machine t.is_broken };
}

impl LocalTree {
    /// Makes the initial tree of the profile, which has no session.
    pub fn new(alloc: Global) -> Result<LocalTree, Memory>
        ensures { IfOk result (λ t. t ≡ record { tree = opening_tree; is_broken = false }) }
    {
        let machine = Machine::new(alloc)?;
        Ok(LocalTree::of(alloc, machine))
    }

    /// Makes the initial tree within these limits, which has no session.
    pub fn within(alloc: Global, limits: TreeLimits) -> Result<LocalTree, Memory>
        requires { AreLimits limits }
        ensures { IfOk result
            (λ t. t ≡ record { tree = opening_within limits; is_broken = false }) }
    {
        let machine = Machine::within(alloc, limits)?;
        Ok(LocalTree::of(alloc, machine))
    }

    /// Takes the tree of a machine that cached no reply and applied no entry.
    pub fn of(alloc: Global, machine: Machine) -> LocalTree
        requires whole { machine.is_broken ≡ false }
        requires bare { IsBare machine }
        ensures { result ≡ record { tree = tree_in machine; is_broken = false } }
    {
        LocalTree {
            alloc,
            machine,
            is_broken: false,
        }
    }

    /// Applies an update of client 0. Returns the reply and the update.
    ///
    /// After `Memory` each call returns `Memory`.
    pub fn apply(&mut self, update: Update) -> Result<(Reply, Update), Memory>
        ensures applied { IfOk result (λ did.
            (self.new.tree, did.0) ≡ serve self.old.tree 0 (Called update)) }
        ensures same { IfOk result (λ did. did.1 ≡ update) }
        ensures sound { OnOk result ((self.old.is_broken ≡ false) × (self.new.is_broken ≡ false)) }
        ensures broken { OnErr result (self.new.is_broken ≡ true) }
        ensures stays { self.old.is_broken ≡ true → IsErr result }
    {
        if self.is_broken {
            return Err(Memory);
        }
        self.is_broken = true;
        let (reply, update) = step(self.alloc, &mut self.machine, update)?;
        self.is_broken = false;
        Ok((reply, update))
    }

    /// Returns the machine that holds its tree; or `Memory`.
    pub fn machine(&self) -> Result<&Machine, Memory>
        ensures tree { IfOk result (λ m. tree_in m.now ≡ self.now.tree) }
        ensures whole { IfOk result (λ m. m.now.is_broken ≡ false) }
        ensures sound { OnOk result (self.now.is_broken ≡ false) }
    {
        if self.is_broken {
            return Err(Memory);
        }
        Ok(&self.machine)
    }

    /// Returns the limits of its tree; or `Memory`.
    pub fn limits(&self) -> Result<TreeLimits, Memory>
        ensures limits { IfOk result (λ limits. limits ≡ self.now.tree.limits) }
        ensures allowed { IfOk result AreLimits }
    {
        Ok(self.machine()?.limits())
    }

    /// Sets the limits of its tree. Refuses limits within which the tree doesn't fit, and says
    /// which one and what it needs. If they are refused, nothing has changed.
    pub fn set_limits(&mut self, limits: TreeLimits) -> Result<(), LimitFault>
        requires whole { self.old.is_broken ≡ false }
        ensures set { OnOk result
            (self.new ≡ record self.old { tree = with_limits self.old.tree limits }) }
        ensures fits { OnOk result (FitsWithin self.old.tree limits) }
        ensures fault { IfErr result (IsFaultOf self.old.tree limits) }
        ensures err { OnErr result (self.new ≡ self.old) }
    {
        self.machine.set_limits(limits)
    }

    /// A lemma for the caller's proof: a service can begin with this tree. The function does
    /// nothing.
    pub fn keeps_held(&self)
        ensures { CanStart self.now.tree }
    {
        self.machine.keeps_lawful();
    }
}

impl TreeService for LocalTree {
    ghost tree = { λ t. t.tree };

    fn apply(&mut self, update: Update) -> Result<(Reply, Update), Memory> {
        LocalTree::apply(self, update)
    }

    fn ask(&self, query: &Query) -> Result<Reply, Memory> {
        self.machine()?.ask(query)
    }

    fn clock(&self) -> Result<(Zxid, u64), Memory> {
        let machine = self.machine()?;
        Ok((machine.zxid(), machine.time()))
    }

    fn paths(&self) -> Result<Vec<Path>, Memory> {
        self.machine()?.paths()
    }

    fn session(&self, id: SessionId) -> Result<Option<Session>, Memory> {
        Ok(self.machine()?.session(id))
    }

    fn session_ids(&self) -> Result<Vec<SessionId>, Memory> {
        self.machine()?.session_ids()
    }

    fn due(&self) -> Result<Vec<SessionId>, Memory> {
        self.machine()?.due()
    }

    fn stale(&self) -> Result<Vec<Path>, Memory> {
        self.machine()?.stale()
    }

    fn owned(&self, session: SessionId) -> Result<Vec<Path>, Memory> {
        self.machine()?.owned(session)
    }

    fn counts(&self) -> Result<Counts, Memory> {
        let machine = self.machine()?;
        Ok(Counts {
            nodes: machine.nodes(),
            sessions: machine.sessions(),
            owned: machine.owned_count(),
            bytes: machine.data_count(),
        })
    }
}
