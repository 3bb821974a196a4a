//! The text of a folder: a snapshot, and entries after it.

use crate::trouble::Trouble;
use std::alloc::Global;
use zcalls::Update;
use zsnapshots::folder::{Compaction, Found, add_entry, read};
use ztree_service::LocalTree;
use zwire::records::write_records;

// More chunks than any snapshot has.
const MANY: usize = 10_000;

/// A tree, and the text that represents it: the snapshot of when they were compared last, and the
/// entries since.
#[derive(Drop)]
pub(crate) struct Folder {
    alloc: Global,
    tree: LocalTree,
    text: Vec<u8>,
}

impl Folder {
    /// Makes the first tree, which an empty text represents.
    pub(crate) fn new(alloc: Global) -> Result<Folder, Trouble> {
        Ok(Folder {
            alloc,
            tree: LocalTree::new(alloc)?,
            text: Vec::new(alloc),
        })
    }

    /// Applies an entry, and appends its text. Returns the update.
    pub(crate) fn apply(&mut self, update: Update) -> Result<Update, Trouble> {
        let mut records = Vec::new(self.alloc);
        add_entry(&mut records, update.copied(self.alloc)?)?;
        write_records(self.alloc, &records, &mut self.text)?;
        let (reply, update) = self.tree.apply(update)?;
        drop(reply);
        Ok(update)
    }

    /// Reads the tree from its text, and then from its snapshot alone. Each time it has the same
    /// snapshot.
    pub(crate) fn compare(&mut self) -> Result<(), Trouble> {
        let snapshot = snapshot(self.alloc, &self.tree)?;
        drop(read_again(self.alloc, &self.text, &snapshot)?);
        self.tree = read_again(self.alloc, &snapshot, &snapshot)?;
        self.text = snapshot;
        Ok(())
    }
}

// Reads the tree that a text represents, which has this snapshot. No password is written.
fn read_again(alloc: Global, text: &[u8], wanted: &[u8]) -> Result<LocalTree, Trouble> {
    let Found {
        tree,
        had_passwords,
        ..
    } = read(alloc, text)?;
    if had_passwords || snapshot(alloc, &tree)?.as_slice() != wanted {
        return Err(Trouble::Text);
    }
    Ok(tree)
}

// Returns the text of a tree's snapshot.
fn snapshot(alloc: Global, tree: &LocalTree) -> Result<Vec<u8>, Trouble> {
    let mut compaction = Compaction::new(alloc, tree)?;
    let mut text = Vec::new(alloc);
    for _ in 0..MANY {
        let Some(chunk) = compaction.next_chunk()? else {
            break;
        };
        text.extend_from_slice(&chunk)?;
    }
    Ok(text)
}
