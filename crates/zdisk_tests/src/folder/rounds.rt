//! Each tree of a story is written, read, and written to the same text again.

use crate::folder::states::{STORIES, add_lines, snapshot, snapshot_of};
use std::alloc::Global;
use std::process::Abort;
use zsnapshots::folder::read;

/// Returns whether a text represents a tree with this snapshot.
pub(crate) fn keeps(rt: &impl Abort, alloc: Global, text: &[u8], wanted: &[u8]) -> bool {
    let Ok(found) = read(alloc, text) else {
        return false;
    };
    let (same, _) = snapshot(rt, alloc, &found.tree);
    drop(found);
    same.as_slice() == wanted
}

// Whether the snapshot of each tree of a story is read again. So is each with the entries after it
// that lead to the last tree, and so are all entries alone.
fn goes_round(rt: &impl Abort, alloc: Global, lines: &[&str]) {
    let last = snapshot_of(rt, alloc, lines);
    for count in 0..=lines.len() {
        let mut text = snapshot_of(rt, alloc, &lines[..count]);
        assert!(rt; keeps(rt, alloc, &text, &text));
        add_lines(rt, alloc, &lines[count..], &mut text);
        assert!(rt; keeps(rt, alloc, &text, &last));
    }
    let mut text = Vec::new(alloc);
    add_lines(rt, alloc, lines, &mut text);
    assert!(rt; keeps(rt, alloc, &text, &last));
}

#[test]
fn each_tree_goes_round(rt: HostRuntime) {
    let alloc = rt.alloc();
    for lines in STORIES {
        goes_round(&rt, alloc, lines);
    }
}
