//! A node in its slot.
//!
//! # Why
//! A row names its parent by Id, so removing a node needs no lookup. A node that comes back is
//! given its parent's Id again, since the parent may have been removed and brought back.

ghost use Rattle.std.specs.Prelude.{◌≡◌, IfOk};

use std::alloc::Global;
use std::mem::size_of;
use zalloc::Memory;
use zpath::Path;
use zslots::{Copied, Id, Linked, Links, List, Slots};
use ztree::Node;

/// A node with its path, its parent and its children; and its links among its siblings, among its
/// owner's nodes, and among the nodes that ticks may remove.
#[derive(Drop)]
pub(crate) struct Row {
    pub(crate) path: Path,
    pub(crate) node: Node,
    // `Some` while the node is in the tree and isn't the root.
    pub(crate) parent: Option<Id>,
    pub(crate) children: List<0>,
    pub(crate) siblings: Links,
    pub(crate) fellows: Links,
    pub(crate) timed: Links,
    // The node's key in the index, while the node is removed. With it, the node comes back without
    // allocating.
    pub(crate) key: Option<Path>,
    // The allocator for its copies.
    pub(crate) alloc: Global,
}

// Rows are most of the memory of a machine with many nodes.
const _: () = prove!(size_of::<Row>() <= 308);

impl Row {
    ghost use Rattle.std.specs.Option.{option_copied};
    ghost use Rattle.znodes.specs.support.Rows.{lone_row};
    ghost use Rattle.znodes.specs.support.Reading.{live_at};

    // Returns a row that is in no list.
    pub(crate) fn alone(alloc: Global, path: Path, node: Node, key: Option<Path>) -> Row
        ensures { result ≡ lone_row alloc path node key }
    {
        Row {
            path,
            node,
            parent: None,
            children: List::new(),
            siblings: Links {
                next: None,
                prev: None,
            },
            fellows: Links {
                next: None,
                prev: None,
            },
            timed: Links {
                next: None,
                prev: None,
            },
            key,
            alloc,
        }
    }

    // Returns the row with this Id, if its node is in the tree.
    pub(crate) fn live(slots: &Slots<Row>, id: Id) -> Option<&Row>
        ensures { option_copied result ≡ live_at slots.now.items id }
    {
        match slots.get(id) {
            Some(row) if row.key.is_none() => Some(row),
            _ => None,
        }
    }
}

impl Copied for Row {
    fn copied(&self) -> Result<Row, Memory> {
        let path = self.path.clone()?;
        let Ok(node) = self.node.copied() else {
            drop(path);
            return Err(Memory);
        };
        let Ok(key) = copied_key(&self.key) else {
            drop(path);
            drop(node);
            return Err(Memory);
        };
        Ok(Row {
            path,
            node,
            parent: self.parent,
            children: self.children,
            siblings: self.siblings,
            fellows: self.fellows,
            timed: self.timed,
            key,
            alloc: self.alloc,
        })
    }
}

fn copied_key(key: &Option<Path>) -> Result<Option<Path>, Memory>
    ensures { IfOk result (λ copy. copy ≡ key.now) }
{
    match key {
        Some(key) => Ok(Some(key.clone()?)),
        None => Ok(None),
    }
}

impl Linked<0> for Row {
    ghost use Rattle.std.specs.Prelude.{refl};

    ghost links = { λ r. r.siblings };

    ghost with_links = { λ r to. record r { siblings = to } };

    ghost reads = { λ _ _. refl };

    ghost same = { λ _. refl };

    ghost twice = { λ _ _ _. refl };

    fn links(&self) -> Links {
        self.siblings
    }

    fn set_links(&mut self, to: Links) {
        self.siblings = to;
    }
}

impl Linked<1> for Row {
    ghost use Rattle.std.specs.Prelude.{refl};

    ghost links = { λ r. r.fellows };

    ghost with_links = { λ r to. record r { fellows = to } };

    ghost reads = { λ _ _. refl };

    ghost same = { λ _. refl };

    ghost twice = { λ _ _ _. refl };

    fn links(&self) -> Links {
        self.fellows
    }

    fn set_links(&mut self, to: Links) {
        self.fellows = to;
    }
}

impl Linked<2> for Row {
    ghost use Rattle.std.specs.Prelude.{refl};

    ghost links = { λ r. r.timed };

    ghost with_links = { λ r to. record r { timed = to } };

    ghost reads = { λ _ _. refl };

    ghost same = { λ _. refl };

    ghost twice = { λ _ _ _. refl };

    fn links(&self) -> Links {
        self.timed
    }

    fn set_links(&mut self, to: Links) {
        self.timed = to;
    }
}
