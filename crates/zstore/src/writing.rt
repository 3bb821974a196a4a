//! Changing a store.
//!
//! # Why
//! `add` makes the node of the next change (zxid + 1), and `raise` alone changes the zxid. So all
//! parts of a multi have one zxid, and a change that is rolled back leaves the zxid as it was.

ghost use Rattle.std.specs.Prelude.{◌≡◌, ◌≢◌, ◌⊎◌, ◌<◌, ◌+◌, [], Some, IfOk, OnOk, OnErr, IsSome, None, false};
ghost use Rattle.std.specs.FinMap as finite;
ghost use Rattle.ztree.specs.declared.limits.TheConstants.{ZXID_BOUND};
ghost use Rattle.zstore.specs.declared.limits.TheConstants.{ID_BOUND};
ghost use Rattle.ztree.specs.Tree.{parent_of, has_node, with_acl_at, with_next_zxid};
ghost use Rattle.ztree.specs.Room.{HasRoomForChild, HasRoomForData, HasRoomForAcl};
ghost use Rattle.zstore.specs.StoreView.{path_of, node_of, AtNode, AtPath};
ghost use Rattle.zstore.specs.StoreView.{KeepsIds, GivesAtMostOne, NamesNew, MakesNode, WritesData, mark_left};
ghost use Rattle.zstore.specs.support.Parts.{WritesContent};
ghost use Rattle.ztree.specs.Lawful.{IsPersistent, IsOwner};
ghost use Rattle.ztree.specs.declared.term.Term.TheVariants.{Unlimited};

use crate::store::Store;
use crate::undo::Undo;
use zalloc::Memory;
use znodes::{Content, Id, Marks};
use zpath::Path;
use ztree::{Data, Node, Term};

impl Store {
    /// Raises the zxid by one. The changes since a savepoint stay. No other call changes the zxid.
    pub fn raise(&mut self)
        requires { self.old.tree.zxid + 1 < ZXID_BOUND }
        ensures tree { self.new.tree ≡ with_next_zxid self.old.tree }
        ensures same { KeepsIds self.old self.new }
        ensures unmarked { self.new.marked ≡ None }
    {
        self.zxid = self.zxid.next();
        self.log.stop(&mut self.nodes);
    }

    /// Adds a node beneath an existing parent, at a free path, by the next change; returns its Id.
    /// Owner 0 means none. The caller has validated the request. After `Memory` nothing has
    /// changed.
    pub fn add(
        &mut self,
        parent: Id,
        path: Path,
        bytes: Data,
        owner: u64,
        term: Term,
        sequential: bool,
    ) -> Result<Id, Memory>
        requires below_root { path ≢ [] }
        requires live { path_of self.old parent ≡ Some (parent_of path) }
        requires free { has_node self.old.tree.nodes path ≡ false }
        requires persistent { IsPersistent (node_of self.old parent) }
        requires owner { IsOwner self.old.tree.sessions owner }
        requires one_end { (term ≡ Unlimited) ⊎ (owner ≡ 0) }
        requires counters { AtNode self.old parent (HasRoomForChild sequential) }
        requires few { finite.len self.old.tree.nodes < self.old.tree.limits.nodes }
        requires zxid { self.old.tree.zxid + 1 < ZXID_BOUND }
        requires given { self.old.given < ID_BOUND }
        ensures added { OnOk result
            (MakesNode self.old self.new path bytes owner term sequential) }
        ensures named { IfOk result (λ id. NamesNew self.old self.new id path) }
        ensures given { GivesAtMostOne self.old self.new }
        ensures marked { OnOk result (self.new.marked ≡ mark_left 2 self.old.marked) }
        ensures err { OnErr result (self.new ≡ self.old) }
    {
        path.keeps_its_form();
        let node = Node::new(bytes, owner, term, self.zxid.next(), self.time);
        let id = self.nodes.add(parent, path, node)?;
        self.log.note(&mut self.nodes, Undo::Added(id));
        let Some(above) = self.nodes.node(parent) else {
            unreachable!()
        };
        let marks = Marks {
            pzxid: self.zxid.next(),
            cversion: above.cversion + 1,
            seq: above.seq + u64::from(sequential),
        };
        let before = self.nodes.put_marks(parent, marks);
        self.log.note(&mut self.nodes, Undo::Marked(parent, before));
        Ok(id)
    }

    /// Writes the data of a live node, by the next change. After `Memory` nothing has changed.
    pub fn put_data(&mut self, id: Id, bytes: Data) -> Result<(), Memory>
        requires live { IsSome (path_of self.old id) }
        requires counters { AtNode self.old id HasRoomForData }
        requires zxid { self.old.tree.zxid + 1 < ZXID_BOUND }
        ensures tree { OnOk result (WritesData self.old self.new id bytes) }
        ensures same { OnOk result (KeepsIds self.old self.new) }
        ensures marked { OnOk result (self.new.marked ≡ mark_left 1 self.old.marked) }
        ensures err { OnErr result (self.new ≡ self.old) }
    {
        if let Some(node) = self.nodes.node(id) {
            let content = Content {
                bytes,
                mzxid: self.zxid.next(),
                mtime: self.time,
                version: node.version + 1,
            };
            self.put_content(id, content);
        }
        Ok(())
    }

    /// Counts a write of the access control list of a live node, and gives up the savepoint.
    /// Allocates nothing.
    pub fn put_acl(&mut self, id: Id)
        requires live { IsSome (path_of self.old id) }
        requires counters { AtNode self.old id HasRoomForAcl }
        ensures tree { AtPath self.old id (λ path.
            self.new.tree ≡ with_acl_at self.old.tree path) }
        ensures same { KeepsIds self.old self.new }
        ensures unmarked { self.new.marked ≡ None }
    {
        self.nodes.raise_acl(id);
        self.log.stop(&mut self.nodes);
    }

    // Writes the content of a live node, and notes how to undo that.
    fn put_content(&mut self, id: Id, content: Content)
        requires live { IsSome (path_of self.old id) }
        ensures tree { WritesContent self.old self.new id content }
        ensures same { KeepsIds self.old self.new }
        ensures marked { self.new.marked ≡ mark_left 1 self.old.marked }
    {
        let before = self.nodes.put_content(id, content);
        self.log.note(&mut self.nodes, Undo::Written(id, before));
    }
}
