//! Calls of the one client, and what the history says of them.

use crate::base::client;
use crate::trouble::Trouble;
use std::alloc::Global;
use zcalls::{Call, Create, Data, Kind, Query, Reply, Update};
use zpath::Path;
use zprotocol::world::{CallEvent, Event, Settled};
use zworld::World;

// Far more events than any settling here takes.
const LIMIT: usize = 1000;

/// Invokes a create of a node without data.
pub fn creates(alloc: Global, path: &str, kind: Kind) -> Result<Event, Trouble> {
    let client = client()?;
    let path = Path::parse(alloc, path)?;
    let bytes = Data::empty();
    let call = Call::Update(Update::Create(Create { path, kind, bytes }));
    Ok(Event::Begin(client, call))
}

/// Invokes a query of the parent's children.
pub fn lists(alloc: Global) -> Result<Event, Trouble> {
    let client = client()?;
    let path = Path::parse(alloc, "/q")?;
    Ok(Event::Begin(client, Call::Query(Query::GetChildren(path))))
}

/// Runs the world until it is quiescent.
pub fn settles(world: &mut World) -> Result<(), Trouble> {
    match world.settle(LIMIT)? {
        Settled::Quiet => Ok(()),
        Settled::Limit => Err(Trouble::NotQuiet),
    }
}

/// Returns whether every call was answered.
pub fn is_answered(history: &[CallEvent]) -> bool {
    let begun = history
        .iter()
        .filter(|event| matches!(event, CallEvent::Begin(_, _, _)))
        .count();
    begun + begun == history.len()
}

/// Returns whether the last answer lists one child.
pub fn has_one_child(history: &[CallEvent]) -> bool {
    match history.last() {
        Some(CallEvent::Answer(_, _, Reply::Children(names))) => names.as_slice().len() == 1,
        _ => false,
    }
}

/// Returns whether the last answer is that of a node that was made.
pub fn has_made(history: &[CallEvent]) -> bool {
    matches!(
        history.last(),
        Some(CallEvent::Answer(_, _, Reply::Created(_)))
    )
}
