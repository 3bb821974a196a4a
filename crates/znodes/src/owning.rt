//! The sessions that may own nodes.

ghost use Rattle.std.specs.Prelude.{◌≡◌, [], None, OnOk, OnErr};
ghost use Rattle.std.specs.FinMap.{get, insert, remove};
ghost use Rattle.ztree.specs.Tree.{ephemerals};

use crate::nodes::Nodes;
use zalloc::Memory;

impl Nodes {
    /// Allows a session to own nodes. After `Memory` nothing has changed.
    pub fn open_owner(&mut self, owner: u64) -> Result<(), Memory>
        requires free { get self.old.owners owner ≡ None }
        ensures ok { OnOk result
            (self.new ≡ record self.old { owners = insert self.old.owners owner tt }) }
        ensures err { OnErr result (self.new ≡ self.old) }
    {
        self.owners.open(owner)?;
        Ok(())
    }

    /// Stops a session from owning nodes. It must own none now.
    pub fn close_owner(&mut self, owner: u64)
        requires owns_none { ephemerals self.old.nodes owner ≡ [] }
        ensures { self.new ≡ record self.old { owners = remove self.old.owners owner } }
    {
        self.owners.close(owner);
    }
}
