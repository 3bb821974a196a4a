//! A tree is written as text, and read again. Texts that represent no tree are reported.

use crate::folder::states::{WORKED, add_lines, snapshot, snapshot_of, tree};
use std::alloc::Global;
use std::process::Abort;
use zcalls::{Data, Expected, Reply, SetData, Update};
use zpath::Path;
use zsnapshots::folder::{ReadFault, read};
use ztree_service::{LocalTree, TreeService};

/// Returns whether the tree has this time and these sessions.
pub(crate) fn is_there(rt: &impl Abort, tree: &LocalTree, time: u64, wanted: &[u64]) -> bool {
    let clock = tree.clock().expect(rt, "there is memory");
    let ids = tree.session_ids().expect(rt, "there is memory");
    let mut places = ids.iter().zip(wanted);
    clock.1 == time
        && ids.len() == wanted.len()
        && places.all(|(id, wanted)| id.number() == *wanted)
}

// Writes more data into a node than a chunk has.
fn grow(rt: &impl Abort, alloc: Global, tree: &mut LocalTree) {
    let bytes = vec![in alloc; 7u8; 65_536].expect(rt, "there is memory");
    let update = Update::SetData(SetData {
        path: Path::parse(alloc, "/a").expect(rt, "there is such a path"),
        bytes: Data::new(alloc, bytes).expect(rt, "there is such data"),
        version: Expected::Any,
    });
    let (reply, update) = tree.apply(update).expect(rt, "there is memory");
    drop(update);
    assert!(rt; matches!(&reply, Reply::Set(_)));
    drop(reply);
}

#[test]
fn a_snapshot_of_two_chunks_is_read_again(rt: HostRuntime) {
    let alloc = rt.alloc();
    let mut tree = tree(&rt, alloc, WORKED);
    grow(&rt, alloc, &mut tree);
    let (text, chunks) = snapshot(&rt, alloc, &tree);
    drop(tree);
    assert!(rt; chunks == 2);
    let found = read(alloc, &text).expect(&rt, "the text keeps a tree");
    assert!(rt; is_there(&rt, &found.tree, 1, &[2]));
    assert!(rt; found.snapshot == text.len());
    assert!(rt; !found.had_passwords);
    let (same, _) = snapshot(&rt, alloc, &found.tree);
    drop(found);
    assert!(rt; same == text);
}

#[test]
fn entries_behind_a_snapshot_are_applied(rt: HostRuntime) {
    let alloc = rt.alloc();
    let mut text = snapshot_of(&rt, alloc, WORKED);
    let long = text.len();
    add_lines(&rt, alloc, &["1 open 3", "0 tick"], &mut text);
    let found = read(alloc, &text).expect(&rt, "the text keeps a tree");
    drop(text);
    assert!(rt; found.snapshot == long);
    // The sixth change opens it.
    assert!(rt; is_there(&rt, &found.tree, 2, &[2, 6]));
    drop(found);
}

#[test]
fn an_entry_is_answered(rt: HostRuntime) {
    let mut found = read(rt.alloc(), b"").expect(&rt, "nothing keeps the first tree");
    let (reply, update) = found
        .tree
        .apply(Update::Open(10))
        .expect(&rt, "there is memory");
    drop(found);
    drop(update);
    assert!(rt; matches!(&reply, Reply::Opened(_, 10)));
    drop(reply);
}

#[test]
fn a_line_without_its_end_keeps_no_tree(rt: HostRuntime) {
    assert!(rt; read(rt.alloc(), b"AQc=").err() == Some(ReadFault::NotRecords));
}
