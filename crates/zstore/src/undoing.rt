//! Undoing changes of the nodes, and giving the undo up.

ghost use Rattle.std.specs.Prelude.{◌≡◌, ◌≤◌, ◌+◌};
ghost use Rattle.zstore.specs.support.Undoing.{Fits, FitAll, parts_of, undone, all_undone, returning, all_returning};
ghost use Rattle.zstore.specs.support.Undoing.{release_all, AllHeld};

use crate::undo::Undo;
use znodes::Nodes;

/// Undoes all noted changes in reverse order. Allocates nothing.
pub(crate) fn undo_all(nodes: &mut Nodes, undos: &mut Vec<Undo>)
    requires fit { FitAll nodes.old.owners undos.old.items (parts_of nodes.old) }
    requires room { all_returning undos.old.items ≤ nodes.old.room }
    ensures parts { parts_of nodes.new ≡ all_undone undos.old.items (parts_of nodes.old) }
    ensures owners { nodes.new.owners ≡ nodes.old.owners }
    ensures given { nodes.new.given ≡ nodes.old.given }
{
    while let Some(undo) = undos.pop() {
        undo_one(nodes, undo);
    }
}

// Undoes one change.
fn undo_one(nodes: &mut Nodes, undo: Undo)
    requires fits { Fits nodes.old.owners undo (parts_of nodes.old) }
    requires room { returning undo ≤ nodes.old.room }
    ensures parts { parts_of nodes.new ≡ undone undo (parts_of nodes.old) }
    ensures owners { nodes.new.owners ≡ nodes.old.owners }
    ensures given { nodes.new.given ≡ nodes.old.given }
    ensures room { nodes.old.room ≤ nodes.new.room + returning undo }
{
    match undo {
        Undo::Added(id) => {
            nodes.take(id);
            nodes.free(id);
        }
        Undo::Taken(id, parent) => nodes.put_back(id, parent),
        Undo::Marked(id, marks) => {
            nodes.put_marks(id, marks);
        }
        Undo::Written(id, content) => {
            nodes.put_content(id, content);
        }
    }
}

/// Drops all nodes that these changes removed, in reverse order: they won't be undone.
pub(crate) fn free_all(nodes: &mut Nodes, undos: &[Undo])
    requires { AllHeld undos.now nodes.old.held }
    ensures { nodes.new ≡ record nodes.old { held = release_all undos.now nodes.old.held } }
{
    let mut left = undos;
    while let Some((last, before)) = left.split_last() {
        if let Undo::Taken(id, _) = last {
            nodes.free(*id);
        }
        left = before;
    }
}
