//! A tree, read from a text.

ghost use Rattle.std.specs.Prelude.{◌≡◌, ◌||◌, false, length, IfErr, IfOk};
ghost use Rattle.zsnapshots.specs.folder.Entries.{ReportsPasswords};
ghost use Rattle.zsnapshots.specs.folder.Faults.{IsReadFault};
ghost use Rattle.zsnapshots.specs.folder.Texts.{IsTextOf};
ghost use Rattle.zsnapshots.specs.folder.support.Reading.{AreApplied, IsEntriesFault};

use crate::folder::fault::ReadFault;
use crate::folder::found::Found;
use crate::folder::front_reading::begun;
use std::alloc::Global;
use ztree_service::LocalTree;
use zwire::records::{Record, next_record};

/// Reads the tree that a text represents: an optional snapshot, and entries after it.
pub fn read(alloc: Global, text: &[u8]) -> Result<Found, ReadFault>
    ensures found { IfOk result (λ found. (is : IsTextOf found.tree.tree text.now)
        × (found.snapshot ≡ length is.front)) }
    ensures passwords { IfOk result (λ found. ReportsPasswords text.now found.had_passwords) }
    ensures whole { IfOk result (λ found. found.tree.is_broken ≡ false) }
    ensures fault { IfErr result (IsReadFault text.now) }
{
    let (mut tree, rest, had_passwords) = begun(alloc, text)?;
    let snapshot = text.len() - rest.len();
    match apply_all(alloc, &mut tree, rest) {
        Ok(more) => Ok(Found {
            tree,
            snapshot,
            had_passwords: either(had_passwords, more),
        }),
        Err(fault) => Err(fault),
    }
}

// Returns whether one of them is true.
fn either(first: bool, second: bool) -> bool
    ensures { result ≡ first || second }
{
    first || second
}

// Applies the entries of a text in order. Returns whether passwords are among them.
fn apply_all(alloc: Global, tree: &mut LocalTree, text: &[u8]) -> Result<bool, ReadFault>
    requires whole { tree.old.is_broken ≡ false }
    ensures applied { IfOk result (AreApplied text.now tree.old tree.new) }
    ensures fault { IfErr result (IsEntriesFault text.now) }
{
    let mut rest = text;
    let mut had_passwords = false;
    while !rest.is_empty() {
        let Some((record, more)) = next_record(alloc, rest)? else {
            return Err(ReadFault::NotRecords);
        };
        match record {
            Record::Password(_) => had_passwords = true,
            Record::Update(update) => {
                tree.apply(update)?;
            }
            Record::Fail(_) | Record::Join(_) | Record::Retire(_) | Record::Row(_) => {
                return Err(ReadFault::NotRecords);
            }
        }
        rest = more;
    }
    Ok(had_passwords)
}
