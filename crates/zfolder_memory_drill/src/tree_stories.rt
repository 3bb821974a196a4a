//! A tree for which memory runs out.

use crate::trees::{Stage, create, snapshot, stage_of, worked_text};
use std::alloc::Global;
use zalloc::Memory;
use zcalls::{Kind, Lifetime, Reply, Update};
use zsnapshots::folder::{Found, ReadFault, read};
use ztesting::Ended;
use ztree_service::{LocalTree, TreeService};

/// Reads a tree from its text: a snapshot, and an entry after it.
pub(crate) fn text_is_read(alloc: Global) -> Ended {
    let Ok(text) = worked_text(alloc) else {
        return Ended::NotBegun;
    };
    match stage_of(alloc, &text) {
        Ok(found) => Ended::done(found == Stage::Worked),
        Err(ReadFault::Memory) => Ended::refused(stage_of(alloc, &text) == Ok(Stage::Worked)),
        Err(ReadFault::NotRecords) => Ended::Wrong,
    }
}

// Returns the tree.
fn worked(alloc: Global) -> Option<LocalTree> {
    let Ok(text) = worked_text(alloc) else {
        return None;
    };
    match read(alloc, &text) {
        Ok(Found { tree, .. }) => Some(tree),
        Err(_) => None,
    }
}

/// Writes a tree as a snapshot, which represents it.
pub(crate) fn snapshot_is_written(alloc: Global) -> Ended {
    let Some(tree) = worked(alloc) else {
        return Ended::NotBegun;
    };
    let ended = match written(alloc, &tree) {
        Ok(found) => Ended::done(found == Stage::Short),
        Err(ReadFault::Memory) => Ended::refused(written(alloc, &tree) == Ok(Stage::Short)),
        Err(ReadFault::NotRecords) => Ended::Wrong,
    };
    drop(tree);
    ended
}

// Returns the content of a tree's snapshot.
fn written(alloc: Global, tree: &LocalTree) -> Result<Stage, ReadFault> {
    let text = snapshot(alloc, tree)?;
    stage_of(alloc, &text)
}

/// Applies a create, whose path is made where it is applied. A tree that has no memory for it
/// returns `Memory` for good.
pub(crate) fn entry_is_applied(alloc: Global) -> Ended {
    let kind = Kind::sequential(Lifetime::Persistent);
    let Ok(update) = create(alloc, "/b", kind) else {
        return Ended::NotBegun;
    };
    let Some(mut tree) = worked(alloc) else {
        drop(update);
        return Ended::NotBegun;
    };
    let ended = match makes(&mut tree, update) {
        Ok(is_made) => Ended::done(is_made),
        Err(Memory) => Ended::refused(is_broken(&mut tree)),
    };
    drop(tree);
    ended
}

// Returns whether the tree returns `Memory` for everything.
fn is_broken(tree: &mut LocalTree) -> bool {
    makes(tree, Update::Tick).is_err() && tree.session_ids().is_err() && tree.clock().is_err()
}

// Applies an update; returns whether it made a node.
fn makes(tree: &mut LocalTree, update: Update) -> Result<bool, Memory> {
    let (reply, update) = tree.apply(update)?;
    drop(update);
    let is_made = matches!(&reply, Reply::Created(_));
    drop(reply);
    Ok(is_made)
}
