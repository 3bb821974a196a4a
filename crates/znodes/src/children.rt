//! The names of a node's children.

ghost use Rattle.std.specs.Prelude.{◌≡◌, [], ◌∷◌, ◌++◌, IfOk, OnOk, IsSome};
ghost use Rattle.std.specs.Option.{option_copied};
ghost use Rattle.zslots.specs.Ids.{Ids};
ghost use Rattle.zslots.specs.Lists.{IsList};
ghost use Rattle.znodes.specs.NodesView.{path_of, AreChildrenOf};
ghost use Rattle.znodes.specs.support.Rows.{sibling_links};
ghost use Rattle.znodes.specs.support.Reading.{name_at, names_at, AreNamesOf};

use crate::nodes::Nodes;
use crate::row::Row;
use std::alloc::Global;
use zalloc::Memory;
use zpath::Name;
use zslots::{Id, List, Slots};

impl Nodes {
    /// Returns the names of a node's children in byte order, or `Memory`.
    pub fn children(&self, id: Id) -> Result<Vec<Name>, Memory>
        requires live { IsSome (path_of self.now id) }
        ensures { IfOk result (λ names. AreChildrenOf self.now id names.items) }
    {
        let Some(row) = Row::live(&self.slots, id) else {
            unreachable!()
        };
        let mut names = last_names(self.alloc, &self.slots, row.children)?;
        names.sort_unstable();
        Ok(names)
    }
}

// Returns the last names of the paths of a list's rows, in the list's order.
fn last_names(alloc: Global, slots: &Slots<Row>, list: List<0>) -> Result<Vec<Name>, Memory>
    requires { (ids : Ids) × IsList sibling_links slots.now.items list ids }
    ensures { IfOk result (λ names. AreNamesOf slots.now.items list names.items) }
{
    let mut names = Vec::with_capacity(alloc, list.len())?;
    let mut at = list.first();
    while let Some(id) = at {
        push_name(slots, id, &mut names)?;
        at = list.next(slots, id);
    }
    Ok(names)
}

// Appends the last name of a row's path.
fn push_name(slots: &Slots<Row>, id: Id, names: &mut Vec<Name>) -> Result<(), Memory>
    ensures { OnOk result
        (names.new.items ≡ names.old.items ++ names_at slots.now.items (id ∷ [])) }
{
    if let Some(name) = last_name(slots, id) {
        names.push(name.clone()?)?;
    }
    Ok(())
}

// Returns the last name of a row's path.
fn last_name(slots: &Slots<Row>, id: Id) -> Option<&Name>
    ensures { option_copied result ≡ name_at slots.now.items id }
{
    slots.get(id)?.path.name()
}
