//! The list of a path's names.

ghost use Rattle.std.specs.Prelude.{◌≡◌, ◌++◌, [], ◌∷◌, IfOk};

use crate::name::Name;
use std::alloc::Global;
use zalloc::Memory;

// One or two names are stored inline, so that a shared list of them takes one allocation.
#[derive(Debug, Drop)]
pub(crate) enum NameList {
    One([Name; 1]),
    Two([Name; 2]),
    Many(Vec<Name>),
}

impl NameList {
    ghost use Rattle.zpath.specs.support.Lists.{items_of};

    // Returns the names with one more at the end.
    pub(crate) fn with_last(alloc: Global, front: &[Name], last: Name) -> Result<NameList, Memory>
        ensures { IfOk result (λ list. items_of list ≡ front.now ++ last ∷ []) }
    {
        match front {
            [] => Ok(NameList::One([last])),
            [first] => Ok(NameList::Two([first.clone()?, last])),
            _ => Ok(NameList::Many(with_last(alloc, front, last)?)),
        }
    }

    pub(crate) fn as_slice(&self) -> &[Name]
        ensures { result.now ≡ items_of self.now }
    {
        match self {
            NameList::One(names) => names,
            NameList::Two(names) => names,
            NameList::Many(names) => names,
        }
    }
}

fn with_last(alloc: Global, front: &[Name], last: Name) -> Result<Vec<Name>, Memory>
    ensures { IfOk result (λ names. names.items ≡ front.now ++ last ∷ []) }
{
    let mut names = Vec::with_capacity(alloc, front.len() + 1)?;
    for name in front {
        names.push(name.clone()?)?;
    }
    names.push(last)?;
    Ok(names)
}
