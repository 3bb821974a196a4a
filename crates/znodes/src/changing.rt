//! Adding nodes, removing them, and bringing them back.
//!
//! # Why
//! A removed node remains in its slot, with its index key, until its undo is given up. So it comes
//! back under its Id without allocating, as the first of its parent's children. No reader sees that
//! order: names are sorted when they are listed.
//!
//! `add` returns `Memory` also when no Id is left. It is the one error of the call for lack of
//! room, and no run gets near 2^64 Ids.

ghost use Rattle.std.specs.Prelude.{◌≡◌, ◌≢◌, ◌<◌, ◌≤◌, [], Some, false, IsSome, IfOk, OnErr};
ghost use Rattle.std.specs.FinMap.{get, remove};
ghost use Rattle.zslots.specs.declared.limits.TheConstants.{GIVEN_BOUND};
ghost use Rattle.ztree.specs.Tree.{parent_of, has_node, children};
ghost use Rattle.znodes.specs.NodesView.{path_of, AtPath, AtNode, AtTaken, IsKnownOwner, SameButRoom};
ghost use Rattle.znodes.specs.NodesView.{Adds, Takes, CanReturn, Returns};

use crate::linking::{
    cut_child, cut_owned, cut_timed, put_child, put_owned, put_timed, set_key, take_key,
};
use crate::nodes::Nodes;
use crate::row::Row;
use zalloc::Memory;
use zpath::Path;
use zslots::Id;
use zslots::limits::{GIVEN_BOUND, MAX_SLOTS};
use ztree::Node;

impl Nodes {
    /// Adds a node at a free path under an existing parent, and returns its Id. After `Memory` only
    /// the room may have changed. `Memory` also means that no Id is left: `GIVEN_BOUND` were given
    /// out, or there are `MAX_SLOTS` slots.
    pub fn add(&mut self, parent: Id, path: Path, node: Node) -> Result<Id, Memory>
        requires below_root { path ≢ [] }
        requires parent { path_of self.old parent ≡ Some (parent_of path) }
        requires free { has_node self.old.nodes path ≡ false }
        requires owner { IsKnownOwner self.old node.owner }
        ensures added { IfOk result (λ id. Adds self.old self.new id path node) }
        ensures err { OnErr result (SameButRoom self.old self.new) }
        ensures kept { OnErr result (self.old.room ≤ self.new.room) }
    {
        if self.slots.given() >= GIVEN_BOUND || self.slots.len() >= MAX_SLOTS {
            drop(path);
            drop(node);
            return Err(Memory);
        }
        let Ok(key) = path.clone() else {
            drop(path);
            drop(node);
            return Err(Memory);
        };
        let Ok(()) = self.index.reserve(1) else {
            drop(key);
            drop(path);
            drop(node);
            return Err(Memory);
        };
        // First make a row as if the node had been removed; then bring it back.
        let id = match self
            .slots
            .insert(Row::alone(self.alloc, path, node, Some(key)))
        {
            Ok(id) => id,
            Err(row) => {
                drop(row);
                return Err(Memory);
            }
        };
        self.put_back(id, parent);
        Ok(id)
    }

    /// Removes a leaf, and stores it so that it can come back. Allocates nothing.
    pub fn take(&mut self, id: Id)
        requires live { IsSome (path_of self.old id) }
        requires below_root { AtPath self.old id (λ path. path ≢ []) }
        requires leaf { AtPath self.old id (λ path. children self.old.nodes path ≡ []) }
        ensures { AtPath self.old id (λ path.
            AtNode self.old id (Takes self.old self.new id path)) }
    {
        let Some(row) = self.slots.get(id) else {
            unreachable!()
        };
        let owner = row.node.owner;
        let term = row.node.term;
        let parent = row.parent;
        self.counts.cut(&row.node);
        let key = self.index.remove(&row.path);
        cut_child(&mut self.slots, parent, id);
        cut_owned(&mut self.slots, &mut self.owners, owner, id);
        set_key(&mut self.slots, id, key);
        cut_timed(&mut self.slots, &mut self.timed, term, id);
    }

    /// Brings a removed node back under its Id and its current parent. Allocates nothing.
    // First into the lists, then into the index.
    pub fn put_back(&mut self, id: Id, parent: Id)
        requires held { IsSome (get self.old.held id) }
        requires fits { AtTaken self.old id (CanReturn self.old) }
        requires room { 0 < self.old.room }
        requires under { AtTaken self.old id (λ t.
            path_of self.old parent ≡ Some (parent_of t.0)) }
        ensures { AtTaken self.old id (Returns self.old self.new id) }
    {
        let Some(row) = self.slots.get(id) else {
            unreachable!()
        };
        let owner = row.node.owner;
        let term = row.node.term;
        self.counts.put(&row.node);
        // No list has all rows, so each can grow.
        self.slots.keeps_countable();
        put_child(&mut self.slots, Some(parent), id);
        put_owned(&mut self.slots, &mut self.owners, owner, id);
        match take_key(&mut self.slots, id) {
            Some(key) => self.index.insert(key, id),
            None => unreachable!(),
        }
        put_timed(&mut self.slots, &mut self.timed, term, id);
        if let Some(row) = self.slots.get_mut(id) {
            row.parent = Some(parent);
        }
    }

    /// Drops a removed node; it can't come back.
    pub fn free(&mut self, id: Id)
        requires held { IsSome (get self.old.held id) }
        ensures { self.new ≡ record self.old { held = remove self.old.held id } }
    {
        self.slots.remove(id);
    }
}
