//! The undo log: the changes since a savepoint.
//!
//! # Why
//! The savepoint's tree and Ids are the current ones before all notes, so no copy is stored. A note
//! is right if it undoes its change. So each write proves one equation, and rolling back needs no
//! search and no allocation.

ghost use Rattle.std.specs.Prelude.{◌≡◌, ◌<◌, ◌≤◌, ◌+◌, ◌++◌, ◌∷◌, []};
ghost use Rattle.std.specs.Vec.{vec_len, vec_capacity};

use crate::undo::Undo;
use crate::undoing::{free_all, undo_all};
use std::alloc::Global;
use zalloc::Memory;
use znodes::Nodes;

/// The undo log since the savepoint, if one is set. Its memory is allocated when the savepoint is
/// set.
#[derive(Drop)]
pub(crate) struct Log {
    pub(crate) undos: Vec<Undo>,
    pub(crate) is_on: bool,
}

impl Log {
    ghost use Rattle.std.specs.Prelude.{None, OnOk, OnErr};
    ghost use Rattle.zstore.specs.support.Undoing.{notes_of, add_note, undos_in, nodes_noted, nodes_released, StartsWith, GivesUp};
    ghost use Rattle.zstore.specs.support.Undoing.{FitAll, parts_of, all_undone, all_returning, AllHeld};

    /// Returns a log without a savepoint.
    pub(crate) fn new(alloc: Global) -> Log
        ensures { notes_of result ≡ None }
    {
        Log {
            undos: Vec::new(alloc),
            is_on: false,
        }
    }

    /// Sets a savepoint with room for `steps` notes, and for the nodes that they bring back. Gives
    /// up an earlier one. After `Memory` no savepoint is set.
    pub(crate) fn start(&mut self, nodes: &mut Nodes, steps: usize) -> Result<(), Memory>
        requires { AllHeld (undos_in self.old) nodes.old.held }
        ensures ok { OnOk result (StartsWith steps (notes_of self.new) nodes.new.room) }
        ensures err { OnErr result (notes_of self.new ≡ None) }
        ensures nodes { GivesUp (undos_in self.old) nodes.old nodes.new }
    {
        self.stop(nodes);
        self.undos.reserve(steps)?;
        nodes.reserve(self.undos.capacity())?;
        self.is_on = true;
        Ok(())
    }

    /// Notes what undoes a change. Gives up the savepoint if it has no room left.
    pub(crate) fn note(&mut self, nodes: &mut Nodes, undo: Undo)
        requires { AllHeld (undos_in self.old ++ undo ∷ []) nodes.old.held }
        ensures notes { notes_of self.new ≡ add_note undo (notes_of self.old) }
        ensures nodes { nodes.new ≡ nodes_noted undo (notes_of self.old) nodes.old }
    {
        if self.is_on && self.undos.len() < self.undos.capacity() {
            push_within(&mut self.undos, undo);
            return;
        }
        if let Undo::Taken(id, _) = &undo {
            nodes.free(*id);
        }
        self.stop(nodes);
    }

    /// Rolls back to the savepoint, and removes it. Allocates nothing.
    pub(crate) fn undo(&mut self, nodes: &mut Nodes)
        requires fit { FitAll nodes.old.owners (undos_in self.old) (parts_of nodes.old) }
        requires room { all_returning (undos_in self.old) ≤ nodes.old.room }
        ensures parts { parts_of nodes.new ≡ all_undone (undos_in self.old) (parts_of nodes.old) }
        ensures owners { nodes.new.owners ≡ nodes.old.owners }
        ensures given { nodes.new.given ≡ nodes.old.given }
        ensures off { notes_of self.new ≡ None }
    {
        if self.is_on {
            undo_all(nodes, &mut self.undos);
            self.is_on = false;
        }
    }

    /// Gives up the savepoint: the changes stay, and the removed nodes are dropped.
    pub(crate) fn stop(&mut self, nodes: &mut Nodes)
        requires { AllHeld (undos_in self.old) nodes.old.held }
        ensures off { notes_of self.new ≡ None }
        ensures empty { self.new.undos.items ≡ [] }
        ensures nodes { nodes.new ≡ nodes_released (undos_in self.old) nodes.old }
    {
        if self.is_on {
            free_all(nodes, &self.undos);
        }
        self.undos.clear();
        self.is_on = false;
    }
}

// Appends a note for which there is room.
fn push_within(undos: &mut Vec<Undo>, undo: Undo)
    requires { vec_len undos.old < vec_capacity undos.old }
    ensures undos { undos.new.items ≡ undos.old.items ++ undo ∷ [] }
    ensures len { vec_len undos.new ≡ vec_len undos.old + 1 }
    ensures room { vec_capacity undos.new ≡ vec_capacity undos.old }
{
    // `insert` is specified to leave the capacity as it is.
    if undos.insert(undos.len(), undo).is_err() {
        unreachable!();
    }
}
