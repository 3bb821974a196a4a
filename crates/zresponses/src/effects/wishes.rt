//! What a request asks for of the watches of its connection.

ghost use Rattle.std.specs.Prelude.{◌≡◌, ◌++◌, ◌∷◌, [], Some, IfOk, OnOk};
ghost use Rattle.zwatches.specs.changes.Events.{event};
ghost use Rattle.zresponses.specs.effects.Wishes as table;
ghost use Rattle.zresponses.specs.declared.effects.wish.Wish.TheVariants as wish;

use crate::effects::again::{add_all_again, add_each_again};
use crate::effects::wish::Wish;
use std::alloc::Global;
use zalloc::Memory;
use zcalls::{Call, Query, Refusal, Reply};
use zjute::{AddMode, Asked, Look, WatchType};
use zpath::Path;
use zwatches::Kind;
use zwatches::changes::{Event, EventKind};

/// Returns the watches that a request asks for, from its calls and their replies.
pub(crate) fn wishes(
    alloc: Global,
    asked: &Asked,
    calls: &[Call],
    replies: &[Reply],
) -> Result<Vec<Wish>, Memory>
    ensures { IfOk result (λ list. list.items ≡ table.wishes asked.now calls.now replies.now) }
{
    let mut list = Vec::new(alloc);
    add_all(asked, calls, replies, &mut list)?;
    Ok(list)
}

// Adds the watches that a request asks for.
fn add_all(
    asked: &Asked,
    calls: &[Call],
    replies: &[Reply],
    list: &mut Vec<Wish>,
) -> Result<(), Memory>
    ensures { OnOk result
        (list.new.items ≡ list.old.items ++ table.wishes asked.now calls.now replies.now) }
{
    match asked {
        Asked::Exists(look)
        | Asked::GetData(look)
        | Asked::GetChildren(look)
        | Asked::GetChildren2(look) => add_look(look, calls, replies, list),
        Asked::SetWatches(set) => add_all_again(set, calls, replies, list),
        Asked::SetWatches2(set) => add_each_again(set, calls, replies, list),
        Asked::AddWatch(add) => add_mode(AddMode::of(add.mode), calls, list),
        Asked::CheckWatches(at) => add_check(WatchType::of(at.kind), calls, list),
        Asked::RemoveWatches(at) => add_end(WatchType::of(at.kind), calls, list),
        _ => Ok(()),
    }
}

// Adds the watch of a request for one node, if it asks for one.
fn add_look(
    look: &Look,
    calls: &[Call],
    replies: &[Reply],
    list: &mut Vec<Wish>,
) -> Result<(), Memory>
    ensures { OnOk result
        (list.new.items ≡ list.old.items ++ table.look_wish look.now calls.now replies.now) }
{
    if look.watch {
        add_first(calls, replies, list)
    } else {
        Ok(())
    }
}

// Adds the watch of the first call.
fn add_first(calls: &[Call], replies: &[Reply], list: &mut Vec<Wish>) -> Result<(), Memory>
    ensures { OnOk result
        (list.new.items ≡ list.old.items ++ table.first_wish calls.now replies.now) }
{
    let [Call::Query(query), ..] = calls else {
        return Ok(());
    };
    match replies {
        [reply, ..] => add_query(query, reply, list),
        [] => Ok(()),
    }
}

// Adds the watch of a query, from the reply to it.
fn add_query(query: &Query, reply: &Reply, list: &mut Vec<Wish>) -> Result<(), Memory>
    ensures { OnOk result
        (list.new.items ≡ list.old.items ++ table.query_wish query.now reply.now) }
{
    match (query, reply) {
        (Query::Exists(path), Reply::Exists(_)) | (Query::GetData(path), Reply::Data(_, _)) => {
            waits(Kind::Data, path, list)
        }
        (Query::Exists(path), Reply::Refused(Refusal::NoNode)) => {
            waits(Kind::Missing, path, list)
        }
        (Query::GetChildren(path), Reply::Children(_)) => waits(Kind::Children, path, list),
        _ => Ok(()),
    }
}

// Adds the added watch of a request.
fn add_mode(mode: Option<AddMode>, calls: &[Call], list: &mut Vec<Wish>) -> Result<(), Memory>
    ensures { OnOk result
        (list.new.items ≡ list.old.items ++ table.added_by mode calls.now) }
{
    match (mode, calls) {
        (Some(mode), [Call::Query(Query::Exists(path)), ..]) => add_added(mode, path, list),
        _ => Ok(()),
    }
}

// Adds an added watch.
#[tactic(auto, using(std::proofs::Common::append_assoc))]
fn add_added(mode: AddMode, path: &Path, list: &mut Vec<Wish>) -> Result<(), Memory>
    ensures { OnOk result
        (list.new.items ≡ list.old.items ++ table.added mode path.now) }
{
    match mode {
        AddMode::Persistent => {
            waits(Kind::EachData, path, list)?;
            waits(Kind::EachChildren, path, list)
        }
        AddMode::Recursive => waits(Kind::Recursive, path, list),
    }
}

// Adds that there is a watch of this type.
fn add_check(type_of: Option<WatchType>, calls: &[Call], list: &mut Vec<Wish>) -> Result<(), Memory>
    ensures { OnOk result
        (list.new.items ≡ list.old.items ++ table.checked_by type_of calls.now) }
{
    let (Some(type_of), [Call::Query(Query::Exists(path)), ..]) = (type_of, calls) else {
        return Ok(());
    };
    let path = path.clone()?;
    list.push(Wish::Has(type_of, path))?;
    Ok(())
}

// Adds that the watches of this type are removed.
fn add_end(type_of: Option<WatchType>, calls: &[Call], list: &mut Vec<Wish>) -> Result<(), Memory>
    ensures { OnOk result
        (list.new.items ≡ list.old.items ++ table.ended_by type_of calls.now) }
{
    let (Some(type_of), [Call::Query(Query::Exists(path)), ..]) = (type_of, calls) else {
        return Ok(());
    };
    let path = path.clone()?;
    list.push(Wish::Ends(type_of, path))?;
    Ok(())
}

/// Adds the added watch of each call.
pub(crate) fn add_all_added(
    mode: AddMode,
    calls: &[Call],
    list: &mut Vec<Wish>,
) -> Result<(), Memory>
    ensures { OnOk result
        (list.new.items ≡ list.old.items ++ table.all_added mode calls.now) }
{
    for call in calls {
        add_one(mode, call, list)?;
    }
    Ok(())
}

// Adds the added watch of a call.
fn add_one(mode: AddMode, call: &Call, list: &mut Vec<Wish>) -> Result<(), Memory>
    ensures { OnOk result
        (list.new.items ≡ list.old.items ++ table.added_by (Some mode) (call.now ∷ [])) }
{
    match call {
        Call::Query(Query::Exists(path)) => add_added(mode, path, list),
        _ => Ok(()),
    }
}

/// Adds that a watch is set.
pub(crate) fn waits(kind: Kind, path: &Path, list: &mut Vec<Wish>) -> Result<(), Memory>
    ensures { OnOk result (list.new.items ≡ list.old.items ++ wish.Waits kind path.now ∷ []) }
{
    let path = path.clone()?;
    list.push(Wish::Waits(kind, path))?;
    Ok(())
}

/// Adds that the event of a watch is sent.
pub(crate) fn reports(kind: EventKind, path: &Path, list: &mut Vec<Wish>) -> Result<(), Memory>
    ensures { OnOk result
        (list.new.items ≡ list.old.items ++ wish.Reports (event kind path.now) ∷ []) }
{
    let path = path.clone()?;
    list.push(Wish::Reports(Event { kind, path }))?;
    Ok(())
}
