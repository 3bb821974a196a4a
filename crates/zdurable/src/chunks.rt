//! The chunks of a front end whose changes are made durable.

ghost use Rattle.std.specs.Prelude.{◌≡◌, List, ℕ};
ghost use Rattle.std.specs.Option.{option_copied};
ghost use Rattle.ztree.specs.Tree.{Tree};
ghost use Rattle.zdurable.specs.DurableFront.{IsServing, IsSound, chunk_in, reports, without_chunk};

use crate::DurableFront;
use zfront::Chunk;
use zjournal::Device;

impl<D: Device> DurableFront<D> {
    /// Returns the chunk to be sent first, if all changes are durable and there is one.
    pub fn first_chunk(&self) -> Option<&Chunk>
        ensures { option_copied result ≡ chunk_in self.now }
    {
        if !self.reports() {
            return None;
        }
        self.front.first_chunk()
    }

    /// Takes the chunk to be sent first, if all changes are durable and there is one.
    pub fn next_chunk(&mut self) -> Option<Chunk>
        requires { IsSound D.seen D.may_leave self.old }
        ensures first { result ≡ chunk_in self.old }
        ensures rest { self.new ≡ without_chunk self.old }
        ensures kept { (servers : ℕ) (batches : List (List ℕ)) (t : Tree)
            → IsServing D.seen D.may_leave servers batches t self.old
            → IsServing D.seen D.may_leave servers batches t self.new }
        ensures sound { IsSound D.seen D.may_leave self.new }
    {
        if !self.reports() {
            return None;
        }
        self.front.next_chunk()
    }

    // Returns whether chunks can be taken.
    fn reports(&self) -> bool
        ensures { result ≡ reports self.now }
    {
        self.is_open && self.front.made().is_empty()
    }
}
