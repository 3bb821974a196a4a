//! Savepoints: set, roll back, give up.
//!
//! # Why
//! The room is counted in steps, not calls: `add` and `drop_leaf` change two rows, the node's and
//! its parent's. A step without room gives the savepoint up, as does every call that is not part of
//! a multi. So no write requires room, or the absence of a savepoint.

ghost use Rattle.std.specs.Prelude.{◌≡◌, None, OnOk, OnErr, IsSome};
ghost use Rattle.zstore.specs.StoreView.{AtMark, GoesBack, MarksHere, without_mark};

use crate::store::Store;
use zalloc::Memory;

impl Store {
    /// Sets a savepoint, with room to roll back `steps` steps: `add` and `drop_leaf` take two
    /// steps, `put_data` one. The savepoint is given up at a step that it has no room for, when
    /// another one is set, and by any other call that writes. After `Memory` no savepoint is set.
    pub fn mark(&mut self, steps: usize) -> Result<(), Memory>
        ensures marked { OnOk result (MarksHere steps self.old self.new) }
        ensures err { OnErr result (self.new ≡ without_mark self.old) }
    {
        self.log.start(&mut self.nodes, steps)?;
        Ok(())
    }

    /// Rolls back to the savepoint, and removes it. The tree and all Ids are as they were; the Ids
    /// given out since are not given out again. Allocates nothing.
    pub fn back(&mut self)
        requires marked { IsSome self.old.marked }
        ensures tree { AtMark self.old (GoesBack self.new) }
        ensures given { self.new.given ≡ self.old.given }
        ensures unmarked { self.new.marked ≡ None }
    {
        self.log.undo(&mut self.nodes);
    }

    /// Gives up the savepoint, if one is set: the changes stay.
    pub fn keep(&mut self)
        ensures { self.new ≡ without_mark self.old }
    {
        self.log.stop(&mut self.nodes);
    }
}
