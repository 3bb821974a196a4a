//! Removing a node.

ghost use Rattle.std.specs.Prelude.{◌≡◌, ◌≢◌, ◌<◌, ◌+◌, [], Some, IsSome};
ghost use Rattle.ztree.specs.declared.limits.TheConstants.{ZXID_BOUND};
ghost use Rattle.ztree.specs.Tree.{children};
ghost use Rattle.ztree.specs.Room.{HasRoomForLosses};
ghost use Rattle.zstore.specs.StoreView.{path_of, AtPath, AtNode, AtParentOf, KeepsIds, mark_left};
ghost use Rattle.zstore.specs.StoreView.{Forgets, ForgetsGone, DropsNode};
ghost use Rattle.zstore.specs.support.Parts.{tree_without, LosesChild, IsUnder};

use crate::store::Store;
use crate::undo::Undo;
use znodes::{Id, Marks};

impl Store {
    /// Removes a node without children, by the next change. Its Id names nothing any more. The
    /// caller has validated the request. Allocates nothing.
    pub fn drop_leaf(&mut self, id: Id)
        requires live { IsSome (path_of self.old id) }
        requires below_root { AtPath self.old id (λ path. path ≢ []) }
        requires leaf { AtPath self.old id (λ path. children self.old.tree.nodes path ≡ []) }
        requires counters { AtParentOf self.old id (HasRoomForLosses 1) }
        requires zxid { self.old.tree.zxid + 1 < ZXID_BOUND }
        ensures tree { DropsNode self.old self.new id }
        ensures forgotten { Forgets self.old self.new id }
        ensures gone { ForgetsGone self.old self.new }
        ensures given { self.new.given ≡ self.old.given }
        ensures marked { self.new.marked ≡ mark_left 2 self.old.marked }
    {
        let parent = self.parent_id(id);
        self.take(id, parent);
        self.child_gone(parent);
    }

    // Returns the parent of a live node.
    fn parent_id(&self, id: Id) -> Id
        requires live { IsSome (path_of self.now id) }
        requires below_root { AtPath self.now id (λ path. path ≢ []) }
        ensures { IsUnder self.now id result }
    {
        match self.nodes.above(id) {
            Some(parent) => parent,
            None => unreachable!(),
        }
    }

    // Removes a live node from beneath its parent, and notes how to undo that.
    fn take(&mut self, id: Id, parent: Id)
        requires live { IsSome (path_of self.old id) }
        requires below_root { AtPath self.old id (λ path. path ≢ []) }
        requires leaf { AtPath self.old id (λ path. children self.old.tree.nodes path ≡ []) }
        requires under { IsUnder self.old id parent }
        ensures tree { AtPath self.old id (λ path.
            self.new.tree ≡ tree_without self.old.tree path) }
        ensures forgotten { Forgets self.old self.new id }
        ensures gone { ForgetsGone self.old self.new }
        ensures given { self.new.given ≡ self.old.given }
        ensures marked { self.new.marked ≡ mark_left 1 self.old.marked }
    {
        self.nodes.take(id);
        self.log.note(&mut self.nodes, Undo::Taken(id, parent));
    }

    // Writes the next change into the fields of a node that lost a child.
    fn child_gone(&mut self, parent: Id)
        requires live { IsSome (path_of self.old parent) }
        requires counters { AtNode self.old parent (HasRoomForLosses 1) }
        requires zxid { self.old.tree.zxid + 1 < ZXID_BOUND }
        ensures tree { LosesChild self.old self.new parent }
        ensures same { KeepsIds self.old self.new }
        ensures marked { self.new.marked ≡ mark_left 1 self.old.marked }
    {
        if let Some(node) = self.nodes.node(parent) {
            let marks = Marks {
                pzxid: self.zxid.next(),
                cversion: node.cversion + 1,
                seq: node.seq,
            };
            let before = self.nodes.put_marks(parent, marks);
            self.log.note(&mut self.nodes, Undo::Marked(parent, before));
        }
    }
}
