//! Restoring a store from rows: the root, then the sessions, then the other nodes, each after its
//! parent.

ghost use Rattle.std.specs.Prelude.{◌≡◌, ◌≢◌, ◌≤◌, ◌+◌, [], None, Some, IsTrue, IsFalse, false, IfOk, IfErr, IfSome, IfNone, OnSome, OnOk, OnErr};
ghost use Rattle.std.specs.FinMap.{get};
ghost use Rattle.ztree.specs.Limits.{AreLimits};
ghost use Rattle.ztree.specs.Tree.{parent_of, has_node};
ghost use Rattle.ztree.specs.Lawful.{IsPersistent, IsOwner, HasOneEnd};
ghost use Rattle.zstore.specs.declared.restore_fault.RestoreFault.TheVariants.{Memory as OfMemory};
ghost use Rattle.zstore.specs.StoreView.{path_of, node_of};
ghost use Rattle.zstore.specs.Restored.{rooted_tree, with_row, with_session_row, CanBeRoot, CanPut, CanPutSession};

use crate::restore_fault::RestoreFault;
use crate::store::Store;
use std::alloc::Global;
use zalloc::Memory;
use znodes::Id;
use zpath::Path;
use ztree::{Node, Session, SessionId, TreeLimits, Zxid};

impl Store {
    /// Makes a store of the root alone, at this tick, after this change and within these limits.
    /// Refuses a root with an owner, or with a term that isn't unlimited, and limits that no tree
    /// can have.
    pub fn restored(
        alloc: Global,
        root: Node,
        time: u64,
        zxid: Zxid,
        limits: TreeLimits,
    ) -> Result<Store, RestoreFault>
        ensures tree { IfOk result (λ s. s.tree ≡ rooted_tree root time zxid limits) }
        ensures given { IfOk result (λ s. s.given ≤ 1) }
        ensures unmarked { IfOk result (λ s. s.marked ≡ None) }
        ensures can { OnOk result (CanBeRoot root) }
        ensures allowed { OnOk result (AreLimits limits) }
        ensures fault { IfErr result (λ fault.
            CanBeRoot root → AreLimits limits → fault ≡ OfMemory) }
    {
        if !limits.is_allowed() {
            drop(root);
            return Err(RestoreFault::Unlawful);
        }
        if root.owner != 0 {
            drop(root);
            return Err(RestoreFault::Unlawful);
        }
        if !root.term.is_unlimited() {
            drop(root);
            return Err(RestoreFault::Unlawful);
        }
        Ok(Store::rooted(alloc, root, time, zxid, limits)?)
    }

    /// Puts one more session, as it is. If it is refused, nothing has changed.
    pub fn put_session(&mut self, id: SessionId, session: Session) -> Result<(), RestoreFault>
        ensures tree { OnOk result (self.new.tree ≡ with_session_row self.old.tree id session) }
        ensures given { OnOk result (self.new.given ≡ self.old.given) }
        ensures unmarked { OnOk result (self.new.marked ≡ None) }
        ensures can { OnOk result (CanPutSession self.old.tree id session) }
        ensures fault { IfErr result (λ fault.
            CanPutSession self.old.tree id session → fault ≡ OfMemory) }
        ensures err { OnErr result (self.new ≡ self.old) }
    {
        if id.number() == 0 {
            return Err(RestoreFault::Unlawful);
        }
        if session.deadline <= self.time {
            return Err(RestoreFault::Unlawful);
        }
        if self.sessions() >= self.limits.sessions {
            return Err(RestoreFault::Unlawful);
        }
        if self.session(id).is_some() {
            return Err(RestoreFault::Unlawful);
        }
        self.add_session(id, session)?;
        Ok(())
    }

    /// Puts one more node, as it is, beneath an existing parent. If it is refused, nothing has
    /// changed.
    pub fn put_node(&mut self, path: Path, node: Node) -> Result<(), RestoreFault>
        ensures tree { OnOk result (self.new.tree ≡ with_row self.old.tree path node) }
        ensures given { OnOk result (self.new.given ≡ self.old.given + 1) }
        ensures unmarked { OnOk result (self.new.marked ≡ None) }
        ensures can { OnOk result (CanPut self.old.tree path node) }
        ensures fault { IfErr result (λ fault.
            CanPut self.old.tree path node → fault ≡ OfMemory) }
        ensures err { OnErr result (self.new ≡ self.old) }
    {
        match self.place_for(&path, &node) {
            Ok(parent) => {
                self.put(parent, path, node)?;
                Ok(())
            }
            Err(fault) => {
                drop(path);
                drop(node);
                Err(fault)
            }
        }
    }

    // Puts one more node that can be put, beneath its parent.
    fn put(&mut self, parent: Id, path: Path, node: Node) -> Result<(), Memory>
        requires below_root { path ≢ [] }
        requires live { path_of self.old parent ≡ Some (parent_of path) }
        requires can { CanPut self.old.tree path node }
        ensures tree { OnOk result (self.new.tree ≡ with_row self.old.tree path node) }
        ensures given { OnOk result (self.new.given ≡ self.old.given + 1) }
        ensures unmarked { OnOk result (self.new.marked ≡ None) }
        ensures err { OnErr result (self.new ≡ self.old) }
    {
        path.keeps_its_form();
        self.nodes.add(parent, path, node)?;
        self.log.stop(&mut self.nodes);
        Ok(())
    }

    // Returns the parent of a node that can be put.
    fn place_for(&self, path: &Path, node: &Node) -> Result<Id, RestoreFault>
        ensures below_root { OnOk result (path.now ≢ []) }
        ensures live { IfOk result (λ parent.
            path_of self.now parent ≡ Some (parent_of path.now)) }
        ensures can { OnOk result (CanPut self.now.tree path.now node.now) }
        ensures fault { IfErr result (λ fault.
            CanPut self.now.tree path.now node.now → fault ≡ OfMemory) }
    {
        if !self.is_owner(node.owner) {
            return Err(RestoreFault::Unlawful);
        }
        if !has_one_end(node) {
            return Err(RestoreFault::Unlawful);
        }
        if self.nodes() >= self.limits.nodes {
            return Err(RestoreFault::Unlawful);
        }
        if self.find(path).is_some() {
            return Err(RestoreFault::Unlawful);
        }
        let Some(parent) = self.place_above(path)? else {
            return Err(RestoreFault::Unlawful);
        };
        if !self.is_persistent(parent) {
            return Err(RestoreFault::Unlawful);
        }
        Ok(parent)
    }

    // Returns the Id of a path's parent, or `None` if there is no such node. The root has none.
    fn place_above(&self, path: &Path) -> Result<Option<Id>, Memory>
        ensures below_root { IfOk result (λ found. OnSome found (path.now ≢ [])) }
        ensures found { IfOk result (λ found. IfSome found (λ id.
            path_of self.now id ≡ Some (parent_of path.now))) }
        ensures none { IfOk result (λ found. IfNone found
            (has_node self.now.tree.nodes path.now ≡ false
            → IsPersistent (get self.now.tree.nodes (parent_of path.now)) → ⊥)) }
    {
        self.keeps_lawful();
        let Some(above) = path.parent()? else {
            return Ok(None);
        };
        let found = self.find(&above);
        drop(above);
        Ok(found)
    }

    // Returns whether the owner is 0 (no owner), or a live session.
    fn is_owner(&self, owner: u64) -> bool
        ensures yes { IsTrue result → IsOwner self.now.tree.sessions owner }
        ensures no { IsFalse result → IsOwner self.now.tree.sessions owner → ⊥ }
    {
        if owner == 0 {
            return true;
        }
        self.session(SessionId::new(owner)).is_some()
    }

    // Returns whether the node with this Id exists and has no owner.
    fn is_persistent(&self, id: Id) -> bool
        ensures yes { IsTrue result → IsPersistent (node_of self.now id) }
        ensures no { IsFalse result → IsPersistent (node_of self.now id) → ⊥ }
    {
        match self.nodes.node(id) {
            Some(node) => node.owner == 0,
            None => false,
        }
    }
}

// Returns whether the node has an unlimited term or no owner.
fn has_one_end(node: &Node) -> bool
    ensures yes { IsTrue result → HasOneEnd node.now }
    ensures no { IsFalse result → HasOneEnd node.now → ⊥ }
{
    if node.term.is_unlimited() {
        return true;
    }
    node.owner == 0
}
