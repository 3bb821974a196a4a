//! Setting, checking and removing watches.

ghost use Rattle.std.specs.Prelude.{◌≡◌, None, IfOk, OnOk};
ghost use Rattle.zwatches.specs.Removal.{has_meant};
ghost use Rattle.zwatches.specs.Watches.{watch, is_full};
ghost use Rattle.zresponses.specs.effects.Watching as table;
ghost use Rattle.zresponses.specs.effects.Watching.{first_fault, full_fault, granted, granted_all};
ghost use Rattle.zresponses.specs.effects.Watching.{none_fault, unwatched, waiting};

use crate::effects::wish::Wish;
use zalloc::Memory;
use zconnections::Tables;
use zjute::{Code, WatchType};
use zpath::Path;
use zwatches::{Kind, WatchFault};

/// Grants the wishes of a connection, in order. Returns why the first isn't granted that isn't.
#[tactic(auto, using(crate::proofs::effects_lemmas::Granting::earlier_of_three, crate::proofs::effects_lemmas::Granting::earlier_alone))]
pub(crate) fn grant_all(
    tables: &mut Tables,
    connection: u32,
    wishes: &[Wish],
) -> Result<Option<Code>, Memory>
    ensures granted { OnOk result
        (tables.new ≡ granted_all connection wishes.now tables.old) }
    ensures fault { IfOk result
        (λ fault. fault ≡ first_fault connection wishes.now tables.old) }
{
    let mut first = None;
    for wish in wishes {
        let fault = grant(tables, connection, wish)?;
        first = earlier(first, fault);
    }
    Ok(first)
}

// Returns the first error, if there is one; else the second.
fn earlier(first: Option<Code>, later: Option<Code>) -> Option<Code>
    ensures { result ≡ table.earlier first later }
{
    match first {
        Some(_) => first,
        None => later,
    }
}

// Grants a wish of a connection. Returns why it isn't granted, if so.
fn grant(tables: &mut Tables, connection: u32, wish: &Wish) -> Result<Option<Code>, Memory>
    ensures granted { OnOk result (tables.new ≡ granted connection wish.now tables.old) }
    ensures fault { IfOk result
        (λ fault. fault ≡ table.fault_of connection wish.now tables.old) }
{
    match wish {
        Wish::Waits(kind, path) => wait(tables, connection, *kind, path),
        Wish::Reports(event) => {
            tables.send_event(connection, event)?;
            Ok(None)
        }
        Wish::Has(type_of, path) => Ok(none(tables.has_watch(connection, *type_of, path))),
        Wish::Ends(type_of, path) => Ok(end(tables, connection, *type_of, path)),
    }
}

// Returns the error, if a connection has no such watch.
fn none(found: bool) -> Option<Code>
    ensures { result ≡ none_fault found }
{
    if found { None } else { Some(Code::NoWatcher) }
}

// Removes watches of a connection. Returns the error, if there is none.
fn end(tables: &mut Tables, connection: u32, type_of: WatchType, path: &Path) -> Option<Code>
    ensures gone { tables.new ≡ unwatched connection type_of path.now tables.old }
    ensures fault { result
        ≡ none_fault (has_meant tables.old.watches connection type_of path.now) }
{
    let found = tables.has_watch(connection, type_of, path);
    tables.unwatch(connection, type_of, path);
    none(found)
}

// Sets a watch of a connection. Returns the error, if it lacks room.
fn wait(
    tables: &mut Tables,
    connection: u32,
    kind: Kind,
    path: &Path,
) -> Result<Option<Code>, Memory>
    ensures waits { OnOk result (tables.new ≡ waiting connection kind path.now tables.old) }
    ensures fault { IfOk result (λ fault. fault
        ≡ full_fault (is_full tables.old.limits tables.old.watches
        (watch path.now kind connection))) }
{
    match tables.watch(connection, kind, path) {
        Ok(()) => Ok(None),
        Err(WatchFault::Full) => Ok(Some(Code::SystemError)),
        Err(WatchFault::Memory) => Err(Memory),
    }
}
