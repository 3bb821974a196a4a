//! A tree, read from the lines of the snapshot with which a text begins.

ghost use Rattle.std.specs.Prelude.{◌≡◌, true, false, map, IfErr, IfNone, IfOk, IfSome, OnOk};
ghost use Rattle.zsnapshots.specs.declared.fault.RowFault.TheVariants.{Memory as OfMemory};
ghost use Rattle.zsnapshots.specs.Loading.{bytes_loaded, nothing_loaded, NeverRefusesAlone};
ghost use Rattle.ztree_service.specs.Machines.{tree_in, IsBare};
ghost use Rattle.zsnapshots.specs.folder.Faults.{IsReadFault};
ghost use Rattle.zsnapshots.specs.folder.Texts.{IsNoText};
ghost use Rattle.zsnapshots.specs.folder.support.Reading.{AreOfNoTree, Begins, HasTree, IsLoaded};

use crate::folder::fault::ReadFault;
use crate::{Loading, RowFault};
use std::alloc::Global;
use zalloc::Memory;
use zops::Machine;
use ztree_service::LocalTree;
use zwire::records::{Record, next_record};

// What follows the rows with which a text begins.
#[derive(Drop)]
struct Behind<'a> {
    rest: &'a [u8],
    had_passwords: bool,
    has_rows: bool,
}

/// Reads the tree with which a text begins, what follows, and whether passwords come before that.
pub(crate) fn begun(alloc: Global, text: &[u8]) -> Result<(LocalTree, &[u8], bool), ReadFault>
    ensures begins { IfOk result (λ x. Begins x.0.tree x.2 text.now x.1.now) }
    ensures whole { IfOk result (λ x. x.0.is_broken ≡ false) }
    ensures fault { IfErr result (IsReadFault text.now) }
{
    let mut loading = Loading::new(alloc);
    let Some(behind) = load(alloc, &mut loading, text)? else {
        return Err(ReadFault::NotRecords);
    };
    if !behind.has_rows {
        return Ok((LocalTree::new(alloc)?, text, false));
    }
    let Some(machine) = bare_machine(loading)? else {
        return Err(ReadFault::NotRecords);
    };
    let tree = LocalTree::of(alloc, machine);
    Ok((tree, behind.rest, behind.had_passwords))
}

// Takes the rows with which a text begins. Returns what follows them, or `None` if a row is
// refused.
fn load<'a>(
    alloc: Global,
    loading: &mut Loading,
    text: &'a [u8],
) -> Result<Option<Behind<'a>>, Memory>
    requires { loading.old ≡ nothing_loaded }
    ensures some { IfOk result (λ read. IfSome read (λ x.
        IsLoaded (bytes_loaded loading.new) x.has_rows x.had_passwords text.now x.rest.now)) }
    ensures none { IfOk result (λ read. IfNone read (IsNoText text.now)) }
{
    let mut rest = text;
    let mut had_passwords = false;
    let mut has_rows = false;
    while let Some((record, more)) = next_record(alloc, rest)? {
        match record {
            Record::Password(_) => had_passwords = true,
            Record::Row(row) => match loading.take(row.as_slice()) {
                Ok(()) => has_rows = true,
                Err(fault) => {
                    of_the_row(fault)?;
                    return Ok(None);
                }
            },
            Record::Update(_) | Record::Fail(_) | Record::Join(_) | Record::Retire(_) => {
                return Ok(Some(Behind {
                    rest,
                    had_passwords,
                    has_rows,
                }));
            }
        }
        rest = more;
    }
    Ok(Some(Behind {
        rest,
        had_passwords,
        has_rows,
    }))
}

// Returns nothing if the fault is the row's, and `Memory` if memory ran out.
fn of_the_row(fault: RowFault) -> Result<(), Memory>
    ensures { OnOk result (fault ≡ OfMemory → ⊥) }
{
    match fault {
        RowFault::Memory => Err(Memory),
        _ => Ok(()),
    }
}

// Returns the machine of the rows that were loaded, if there is one and it did nothing.
fn bare_machine(loading: Loading) -> Result<Option<Machine>, Memory>
    ensures some { IfOk result (λ read. IfSome read (HasTree (bytes_loaded loading))) }
    ensures none { IfOk result (λ read. IfNone read (AreOfNoTree (bytes_loaded loading))) }
{
    let Some(machine) = loading.finish() else {
        return Ok(None);
    };
    if !is_bare(&machine)? {
        return Ok(None);
    }
    Ok(Some(machine))
}

// Returns whether a machine cached no reply and applied no entry.
fn is_bare(machine: &Machine) -> Result<bool, Memory>
    requires whole { machine.now.is_broken ≡ false }
    ensures yes { IfOk result (λ bare. bare ≡ true → IsBare machine.now) }
    ensures no { IfOk result (λ bare. bare ≡ false → IsBare machine.now → ⊥) }
{
    let clients = machine.clients()?;
    if !clients.is_empty() {
        return Ok(false);
    }
    Ok(machine.applied() == 0)
}
