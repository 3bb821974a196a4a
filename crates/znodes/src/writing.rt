//! Writing the fields of a node.

ghost use Rattle.std.specs.Prelude.{◌≡◌, IsSome};
ghost use Rattle.ztree.specs.Tree.{with_acl};
ghost use Rattle.ztree.specs.Room.{HasRoomForAcl};
ghost use Rattle.znodes.specs.NodesView.{path_of, AtNode, Writes, marks_of, content_of, node_with_marks, node_with_content};

use crate::nodes::Nodes;
use crate::parts::{Content, Marks};
use std::mem;
use zslots::Id;

impl Nodes {
    /// Writes the fields that its children change, and returns the old ones.
    pub fn put_marks(&mut self, id: Id, marks: Marks) -> Marks
        requires live { IsSome (path_of self.old id) }
        ensures written { Writes self.old self.new id (node_with_marks marks) }
        ensures before { AtNode self.old id (λ n. result ≡ marks_of n) }
    {
        let Some(row) = self.slots.get_mut(id) else {
            unreachable!()
        };
        let before = Marks {
            pzxid: row.node.pzxid,
            cversion: row.node.cversion,
            seq: row.node.seq,
        };
        row.node.pzxid = marks.pzxid;
        row.node.cversion = marks.cversion;
        row.node.seq = marks.seq;
        before
    }

    /// Counts a write of its access control list.
    pub fn raise_acl(&mut self, id: Id)
        requires live { IsSome (path_of self.old id) }
        requires counters { AtNode self.old id HasRoomForAcl }
        ensures written { Writes self.old self.new id with_acl }
    {
        let Some(row) = self.slots.get_mut(id) else {
            unreachable!()
        };
        row.node.aversion += 1;
    }

    /// Writes the fields of its data, and returns the old ones.
    pub fn put_content(&mut self, id: Id, content: Content) -> Content
        requires live { IsSome (path_of self.old id) }
        ensures written { Writes self.old self.new id (node_with_content content) }
        ensures before { AtNode self.old id (λ n. result ≡ content_of n) }
    {
        let Some(row) = self.slots.get_mut(id) else {
            unreachable!()
        };
        self.counts.change(&row.node.bytes, &content.bytes);
        let before = Content {
            bytes: mem::replace(&mut row.node.bytes, content.bytes),
            mzxid: row.node.mzxid,
            mtime: row.node.mtime,
            version: row.node.version,
        };
        row.node.mzxid = content.mzxid;
        row.node.mtime = content.mtime;
        row.node.version = content.version;
        before
    }
}
