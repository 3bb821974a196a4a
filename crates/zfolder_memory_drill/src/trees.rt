//! A tree with a session, a node and a tick, and the texts that represent it.

use std::alloc::Global;
use zalloc::Memory;
use zcalls::{Create, Data, Kind, Lifetime, Query, Reply, Update};
use zpath::{Name, Path};
use zsnapshots::folder::{Compaction, Found, ReadFault, add_entry, read};
use ztree_service::{LocalTree, TreeService};
use zwire::records::write_records;

// More chunks than its snapshot has.
const MANY: usize = 9;

/// The content of a text.
#[derive(Clone, Copy, Debug, PartialEq, Eq)]
pub(crate) enum Stage {
    /// The tree, as a snapshot and the tick after it.
    Worked,
    /// The tree, as a snapshot alone.
    Short,
    /// The tree a tick later, as a snapshot and both ticks after it.
    Ticked,
    /// The tree a tick later, as a snapshot alone.
    ShortTicked,
    /// Another tree.
    Other,
}

/// Returns the text that represents the tree: a snapshot with the session and the node, and a tick
/// after it.
pub(crate) fn worked_text(alloc: Global) -> Result<Vec<u8>, Memory> {
    let mut text = begun_text(alloc)?;
    add_tick(alloc, &mut text)?;
    Ok(text)
}

// The snapshot alone.
fn begun_text(alloc: Global) -> Result<Vec<u8>, Memory> {
    let mut tree = LocalTree::new(alloc)?;
    drop(tree.apply(Update::Open(9))?);
    let kind = Kind::named(Lifetime::Persistent);
    drop(tree.apply(create(alloc, "/a", kind)?)?);
    snapshot(alloc, &tree)
}

fn add_tick(alloc: Global, text: &mut Vec<u8>) -> Result<(), Memory> {
    let mut records = Vec::new(alloc);
    add_entry(&mut records, Update::Tick)?;
    write_records(alloc, &records, text)
}

/// Returns an update that makes a node without data.
pub(crate) fn create(alloc: Global, path: &str, kind: Kind) -> Result<Update, Memory> {
    let Ok(path) = Path::parse(alloc, path) else {
        return Err(Memory);
    };
    Ok(Update::Create(Create {
        path,
        kind,
        bytes: Data::empty(),
    }))
}

/// Returns the text of a tree's snapshot.
pub(crate) fn snapshot(alloc: Global, tree: &LocalTree) -> Result<Vec<u8>, Memory> {
    let mut compaction = Compaction::new(alloc, tree)?;
    let mut text = Vec::new(alloc);
    for _ in 0..MANY {
        let Some(chunk) = compaction.next_chunk()? else {
            break;
        };
        text.extend_from_slice(&chunk)?;
    }
    Ok(text)
}

/// Returns the content of a text.
pub(crate) fn stage_of(alloc: Global, text: &[u8]) -> Result<Stage, ReadFault> {
    let Found { tree, snapshot, .. } = read(alloc, text)?;
    if !has_session(&tree)? || !has_node(&tree)? {
        return Ok(Stage::Other);
    }
    let (_, time) = tree.clock()?;
    Ok(stage_at(time, snapshot == text.len()))
}

fn stage_at(time: u64, is_short: bool) -> Stage {
    match (time, is_short) {
        (1, false) => Stage::Worked,
        (1, true) => Stage::Short,
        (2, false) => Stage::Ticked,
        (2, true) => Stage::ShortTicked,
        _ => Stage::Other,
    }
}

// Returns whether the tree has the session, and no other one.
fn has_session(tree: &LocalTree) -> Result<bool, Memory> {
    let ids = tree.session_ids()?;
    Ok(ids.len() == 1 && ids[0].number() == 1)
}

/// Returns whether the tree has the node, and no other one beneath its root.
pub(crate) fn has_node(tree: &LocalTree) -> Result<bool, Memory> {
    let query = Query::GetChildren(Path::root());
    let reply = tree.ask(&query)?;
    drop(query);
    let is_so = match &reply {
        Reply::Children(names) => is_node(names.as_slice()),
        _ => false,
    };
    drop(reply);
    Ok(is_so)
}

fn is_node(names: &[Name]) -> bool {
    match names {
        [name] => name.as_str() == "a",
        _ => false,
    }
}
