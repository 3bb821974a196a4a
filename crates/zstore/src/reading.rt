//! Reading a store.
//!
//! # Why
//! `stale` names each stale node once, in no fixed order: removing two nodes in either order leaves
//! the same tree (`proofs/order`).

ghost use Rattle.std.specs.Prelude.{◌≡◌, ◌+◌, [], Some, None, IfOk, IfSome, IfNone, OnSome, is_some, IsSome};
ghost use Rattle.std.specs.FinMap.{get, keys};
ghost use Rattle.ztree.specs.Stale.{stale_nodes};
ghost use Rattle.ztree.specs.Tree.{has_node, ephemerals};
ghost use Rattle.zstore.specs.StoreView.{path_of, node_of, data_of, seq_of, term_of, AreStale, IsStatOf, AreChildrenOf, without_mark};

use crate::log::Log;
use crate::store::Store;
use crate::undoing::free_all;
use zalloc::Memory;
use znodes::Id;
use zpath::{Name, Path};
use ztree::{Node, SessionId, Stat, Term};

impl Store {
    /// Returns the Id of the node at a path, or `None` if there is no such node. One lookup.
    pub fn find(&self, path: &Path) -> Option<Id>
        ensures found { IfSome result (λ id. path_of self.now id ≡ Some path.now) }
        ensures node { is_some result ≡ has_node self.now.tree.nodes path.now }
    {
        self.nodes.find(path)
    }

    /// Returns the node with this Id, or `None` if there is no such node.
    pub fn node(&self, id: Id) -> Option<&Node>
        ensures node { IfSome result (λ n. node_of self.now id ≡ Some n.now) }
        ensures gone { IfNone result (path_of self.now id ≡ None) }
    {
        self.nodes.node(id)
    }

    /// Returns the data of the node with this Id, or `None` if there is no such node.
    pub fn data(&self, id: Id) -> Option<&[u8]>
        ensures bytes { IfSome result (λ bytes. data_of self.now id ≡ Some bytes.now) }
        ensures gone { IfNone result (path_of self.now id ≡ None) }
    {
        let node = self.node(id)?;
        Some(node.bytes.as_slice())
    }

    /// Returns the stat of the node with this Id, or `None` if there is no such node.
    pub fn stat(&self, id: Id) -> Option<Stat>
        ensures stat { IfSome result (IsStatOf self.now id) }
        ensures live { OnSome result (IsSome (path_of self.now id)) }
        ensures gone { IfNone result (path_of self.now id ≡ None) }
    {
        let node = self.nodes.node(id)?;
        let children = self.nodes.child_count(id)?;
        Some(node.stat(children as u64))
    }

    /// Returns the counter of the node with this Id, or `None` if there is no such node.
    pub fn seq(&self, id: Id) -> Option<u64>
        ensures seq { IfSome result (λ seq. seq_of self.now id ≡ Some seq) }
        ensures gone { IfNone result (path_of self.now id ≡ None) }
    {
        Some(self.node(id)?.seq)
    }

    /// Returns the term of the node with this Id, or `None` if there is no such node.
    pub fn term(&self, id: Id) -> Option<Term>
        ensures term { IfSome result (λ term. term_of self.now id ≡ Some term) }
        ensures gone { IfNone result (path_of self.now id ≡ None) }
    {
        Some(self.node(id)?.term)
    }

    /// Returns the Ids of the nodes that the next tick removes, each once; or `Memory`. They are
    /// due at that tick, and have no children. The cost depends on the number of containers and
    /// nodes with a TTL.
    pub fn stale(&self, tick: u64) -> Result<Vec<Id>, Memory>
        requires next { tick ≡ self.now.tree.time + 1 }
        ensures { IfOk result (λ ids.
            AreStale self.now.tree.nodes self.now.places tick ids.items) }
    {
        self.nodes.stale(tick)
    }

    /// Returns the paths of the nodes that the next tick removes, in their order; or `Memory`. The
    /// cost is that of `stale`.
    pub fn stale_paths(&self, tick: u64) -> Result<Vec<Path>, Memory>
        requires next { tick ≡ self.now.tree.time + 1 }
        ensures { IfOk result (λ paths. paths.items ≡ stale_nodes self.now.tree.nodes tick) }
    {
        self.nodes.stale_paths(tick)
    }

    /// Returns the paths of the nodes that a session owns, in their order; or `Memory`. A session
    /// that isn't there owns none. The cost depends on the number of these nodes.
    pub fn owned(&self, session: SessionId) -> Result<Vec<Path>, Memory>
        ensures owned { IfOk result (λ paths. IsSome (get self.now.tree.sessions session)
            → paths.items ≡ ephemerals self.now.tree.nodes session) }
        ensures gone { IfOk result (λ paths.
            get self.now.tree.sessions session ≡ None → paths.items ≡ []) }
    {
        self.nodes.owned(session.number())
    }

    /// Returns the names of a node's children in byte order, or `Memory`.
    pub fn children(&self, id: Id) -> Result<Vec<Name>, Memory>
        requires live { IsSome (path_of self.now id) }
        ensures { IfOk result (λ names. AreChildrenOf self.now id names.items) }
    {
        self.nodes.children(id)
    }

    /// Returns the paths of all nodes in their order, or `Memory`. A parent comes before its
    /// children.
    pub fn paths(&self) -> Result<Vec<Path>, Memory>
        ensures { IfOk result (λ paths. paths.items ≡ keys self.now.tree.nodes) }
    {
        self.nodes.paths()
    }

    /// Returns the ids of all sessions in their order, or `Memory`.
    pub fn session_ids(&self) -> Result<Vec<SessionId>, Memory>
        ensures { IfOk result (λ ids. ids.items ≡ keys self.now.tree.sessions) }
    {
        self.sessions.ids()
    }

    /// Returns a copy with the same tree and the same Ids, but without a savepoint; or `Memory`.
    pub fn copy(&self) -> Result<Store, Memory>
        ensures { IfOk result (λ copy. copy ≡ without_mark self.now) }
    {
        let mut nodes = self.nodes.copy()?;
        if self.log.is_on {
            free_all(&mut nodes, &self.log.undos);
        }
        Ok(Store {
            nodes,
            sessions: self.sessions.copy()?,
            time: self.time,
            zxid: self.zxid,
            limits: self.limits,
            log: Log::new(self.alloc),
            alloc: self.alloc,
        })
    }
}
