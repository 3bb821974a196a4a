//! The nodes as one value.

ghost use Rattle.std.specs.Prelude.{◌≡◌, ◌≤◌, IfOk, OnOk};
ghost use Rattle.std.specs.FinMap as finite;

use crate::counts::Counts;
use crate::index::Index;
use crate::owners::Owners;
use crate::row::Row;
use std::alloc::Global;
use std::marker::Model;
use zalloc::Memory;
use zpath::Path;
use zslots::{List, Slots};
use ztree::Node;

/// The znodes of one machine.
#[derive(Drop)]
pub struct Nodes {
    pub(crate) slots: Slots<Row>,
    pub(crate) index: Index,
    pub(crate) owners: Owners,
    pub(crate) timed: List<2>,
    pub(crate) counts: Counts,
    pub(crate) alloc: Global,
}

impl Model for Nodes {
    ghost use Rattle.znodes.specs.NodesView.{NodesView, coded_nodes_view};

    ghost Value = { NodesView };

    ghost coded = { coded_nodes_view };

    ghost use Rattle.znodes.specs.support.Rows.{IsThreaded};
    ghost use Rattle.znodes.specs.support.Fields.{view_of};

    ghost view = { view_of };

    ghost invariant = { λ s. IsThreaded s.slots.items s.index.ids s.owners s.timed s.counts };
}

impl Nodes {
    ghost use Rattle.znodes.specs.NodesView.{IsOpening, SameButRoom};
    ghost use Rattle.ztree.specs.declared.term.Term.TheVariants.{Unlimited};

    /// Makes nodes with the root alone, or returns `Memory`. The root has no owner, and its
    /// term is unlimited.
    pub fn new(alloc: Global, root: Node) -> Result<Nodes, Memory>
        requires nobodys { root.owner ≡ 0 }
        requires stays { root.term ≡ Unlimited }
        ensures { IfOk result (IsOpening root) }
    {
        let mut counts = Counts::new();
        counts.put(&root);
        let mut index = Index::new(alloc);
        index.reserve(1)?;
        let mut slots = Slots::new(alloc);
        let row = Row::alone(alloc, Path::root(), root, None);
        let id = match slots.insert(row) {
            Ok(id) => id,
            Err(row) => {
                drop(row);
                drop(slots);
                drop(index);
                return Err(Memory);
            }
        };
        index.insert(Path::root(), id);
        Ok(Nodes {
            slots,
            index,
            owners: Owners::new(alloc),
            timed: List::new(),
            counts,
            alloc,
        })
    }

    /// Returns the number of Ids given out so far.
    pub fn given(&self) -> u128
        ensures { result ≡ self.now.given }
    {
        self.slots.given()
    }

    /// Returns the number of nodes, the root included.
    pub fn len(&self) -> usize
        ensures { result ≡ finite.len self.now.nodes }
    {
        self.index.len()
    }

    /// Reserves room in the index, so that `more` nodes can come back without allocating. After
    /// `Memory` only the room may have changed.
    pub fn reserve(&mut self, more: usize) -> Result<(), Memory>
        ensures room { OnOk result (more ≤ self.new.room) }
        ensures same { SameButRoom self.old self.new }
        ensures kept { self.old.room ≤ self.new.room }
    {
        self.index.reserve(more)?;
        Ok(())
    }

    /// Returns a copy with the same Ids, and the removed nodes that can come back; or `Memory`.
    pub fn copy(&self) -> Result<Nodes, Memory>
        ensures { IfOk result (SameButRoom self.now) }
    {
        let owners = self.owners.copy()?;
        let Ok(index) = self.index.copy() else {
            drop(owners);
            return Err(Memory);
        };
        let Ok(slots) = self.slots.copy() else {
            drop(index);
            drop(owners);
            return Err(Memory);
        };
        Ok(Nodes {
            slots,
            index,
            owners,
            timed: self.timed,
            counts: self.counts,
            alloc: self.alloc,
        })
    }
}
