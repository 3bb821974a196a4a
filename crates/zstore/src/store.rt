//! The store.

ghost use Rattle.std.specs.Prelude.{◌≡◌, ◌≤◌, IfOk, None};
ghost use Rattle.std.specs.FinMap as finite;

use crate::log::Log;
use std::alloc::Global;
use std::marker::Model;
use zalloc::Memory;
use znodes::Nodes;
use zsessions::Sessions;
use ztree::{Data, Node, Term, TreeLimits, Zxid};

/// The znodes and sessions of one machine, its clock and the zxid of its last change.
#[derive(Drop)]
pub struct Store {
    pub(crate) nodes: Nodes,
    pub(crate) sessions: Sessions,
    pub(crate) time: u64,
    pub(crate) zxid: Zxid,
    pub(crate) limits: TreeLimits,
    pub(crate) log: Log,
    pub(crate) alloc: Global,
}

impl Model for Store {
    ghost use Rattle.zstore.specs.StoreView.{StoreView, coded_store_view};

    ghost Value = { StoreView };

    ghost coded = { coded_store_view };

    ghost use Rattle.zstore.specs.support.Stored.{held_by, IsStored};
    ghost use Rattle.zstore.specs.support.Undoing.{notes_of};

    ghost view = { held_by };

    ghost invariant = { λ s. IsStored (notes_of s.log) s.nodes s.sessions s.time s.zxid s.limits };
}

impl Store {
    ghost use Rattle.ztree.specs.Limits.{AreLimits};
    ghost use Rattle.ztree.specs.Tree.{opening_tree, opening_within};
    ghost use Rattle.ztree.specs.Counts.{owned_count, data_count};
    ghost use Rattle.ztree.specs.Lawful.{IsLawful, HasPaths};
    ghost use Rattle.zstore.specs.Restored.{rooted_tree, CanBeRoot};

    /// Makes a store in the initial state of the profile: the root alone.
    pub fn new(alloc: Global) -> Result<Store, Memory>
        ensures opening { IfOk result (λ s. s.tree ≡ opening_tree) }
        ensures given { IfOk result (λ s. s.given ≤ 1) }
        ensures unmarked { IfOk result (λ s. s.marked ≡ None) }
    {
        Store::within(alloc, TreeLimits::profile())
    }

    /// Makes a store in the initial state within these limits: the root alone.
    pub fn within(alloc: Global, limits: TreeLimits) -> Result<Store, Memory>
        requires { AreLimits limits }
        ensures opening { IfOk result (λ s. s.tree ≡ opening_within limits) }
        ensures given { IfOk result (λ s. s.given ≤ 1) }
        ensures unmarked { IfOk result (λ s. s.marked ≡ None) }
    {
        let zxid = Zxid::new(0);
        let root = Node::new(Data::empty(), 0, Term::Unlimited, zxid, 0);
        Store::rooted(alloc, root, 0, zxid, limits)
    }

    /// Makes a store of the root alone, at this tick, after this change and within these limits.
    pub(crate) fn rooted(
        alloc: Global,
        root: Node,
        time: u64,
        zxid: Zxid,
        limits: TreeLimits,
    ) -> Result<Store, Memory>
        requires root { CanBeRoot root }
        requires limits { AreLimits limits }
        ensures tree { IfOk result (λ s. s.tree ≡ rooted_tree root time zxid limits) }
        ensures given { IfOk result (λ s. s.given ≤ 1) }
        ensures unmarked { IfOk result (λ s. s.marked ≡ None) }
    {
        Ok(Store {
            nodes: Nodes::new(alloc, root)?,
            sessions: Sessions::new(alloc),
            time,
            zxid,
            limits,
            log: Log::new(alloc),
            alloc,
        })
    }

    /// Returns the current tick.
    pub fn now(&self) -> u64
        ensures { result ≡ self.now.tree.time }
    {
        self.time
    }

    /// Returns the zxid of the last change.
    pub fn zxid(&self) -> Zxid
        ensures { result ≡ self.now.tree.zxid }
    {
        self.zxid
    }

    /// Returns the limits of the tree.
    pub fn limits(&self) -> TreeLimits
        ensures { result ≡ self.now.tree.limits }
    {
        self.limits
    }

    /// Returns the number of nodes, the root included.
    pub fn nodes(&self) -> usize
        ensures { result ≡ finite.len self.now.tree.nodes }
    {
        self.nodes.len()
    }

    /// Returns the number of nodes that sessions own.
    pub fn owned_count(&self) -> usize
        ensures { result ≡ owned_count self.now.tree.nodes }
    {
        self.nodes.owned_count()
    }

    /// Returns the bytes of the data of all nodes.
    pub fn data_count(&self) -> u64
        ensures { result ≡ data_count self.now.tree.nodes }
    {
        self.nodes.data_count()
    }

    /// Returns the number of sessions.
    pub fn sessions(&self) -> usize
        ensures { result ≡ finite.len self.now.tree.sessions }
    {
        self.sessions.len()
    }

    /// An invariant of every store: its tree is lawful. The function does nothing.
    pub fn keeps_lawful(&self)
        ensures { IsLawful self.now.tree }
    {
        // Reading the store brings its invariant into the proof.
        let _ = &self.time;
    }

    /// An invariant of every store: each key of its tree is a path. The function does nothing.
    pub fn keeps_paths(&self)
        ensures { HasPaths self.now.tree.nodes }
    {
        // Reading the store brings its invariant into the proof.
        let _ = &self.time;
    }

    /// Returns the number of Ids given out so far.
    pub fn given(&self) -> u128
        ensures { result ≡ self.now.given }
    {
        self.nodes.given()
    }
}
