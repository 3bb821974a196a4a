//! Trees that lines come to, and their texts.

use std::alloc::Global;
use std::process::Abort;
use zcalls::{Call, Update};
use zscript_text::{Line, Request, read_line};
use zsnapshots::folder::{Compaction, add_entry};
use ztree_service::LocalTree;
use zwire::records::write_records;

// More chunks than any tree here has.
const MANY: usize = 100;

/// Two sessions, of which the first was closed, and two nodes.
pub(crate) const WORKED: &[&str] = &[
    "1 open 100",
    "1 open 2000",
    "1 create /a p -",
    "1 create /a/b p aGk=",
    "1 close 1",
    "0 tick",
];

/// Sessions that are closed or time out, and nodes that go with them.
const SESSIONS: &[&str] = &[
    "1 open 2",
    "1 create /e e:1 aGk=",
    "1 open 1000",
    "1 create /s- es:3 -",
    "0 tick",
    "1 ping 3",
    "0 tick",
    "0 tick",
    "1 close 3",
    "0 tick",
];

/// Nodes that are made, written and deleted, and one whose time to live passes.
const NODES: &[&str] = &[
    "1 create /a p aGk=",
    "1 create /a/b p -",
    "1 create /a/s- ps eA==",
    "1 create /t t:1 -",
    "1 set /a any aGVsbG8=",
    "1 multi create /m p - ; set /a any - ; check /m 0",
    "1 delete /a/b any",
    "1 set /none any -",
    "0 tick",
    "0 tick",
    "1 create /a/s- ps -",
];

/// The stories.
pub(crate) const STORIES: &[&[&str]] = &[WORKED, SESSIONS, NODES];

/// Returns the tree that the updates of these lines come to.
pub(crate) fn tree(rt: &impl Abort, alloc: Global, lines: &[&str]) -> LocalTree {
    let mut tree = LocalTree::new(alloc).expect(rt, "there is memory");
    for line in lines {
        let reply = tree.apply(update(rt, alloc, line));
        drop(reply.expect(rt, "there is memory"));
    }
    tree
}

/// Returns the update of a line.
pub(crate) fn update(rt: &impl Abort, alloc: Global, line: &str) -> Update {
    let Ok(Line::Call(request)) = read_line(alloc, line.as_bytes()) else {
        panic!(rt; "a line is a call: {line}")
    };
    let Request { client: _, call } = request;
    let Call::Update(update) = call else {
        panic!(rt; "a line is an update: {line}")
    };
    update
}

/// Returns the text of a tree's snapshot, and how many chunks it has.
pub(crate) fn snapshot(rt: &impl Abort, alloc: Global, tree: &LocalTree) -> (Vec<u8>, usize) {
    let mut compaction = Compaction::new(alloc, tree).expect(rt, "there is memory");
    let mut text = Vec::new(alloc);
    for chunks in 0..MANY {
        let Some(chunk) = compaction.next_chunk().expect(rt, "there is memory") else {
            return (text, chunks);
        };
        text.extend_from_slice(&chunk).expect(rt, "there is memory");
    }
    (text, MANY)
}

/// Returns the text of the snapshot of the tree that these lines come to.
pub(crate) fn snapshot_of(rt: &impl Abort, alloc: Global, lines: &[&str]) -> Vec<u8> {
    let tree = tree(rt, alloc, lines);
    let (text, _) = snapshot(rt, alloc, &tree);
    drop(tree);
    text
}

/// Appends the text of the entries of these lines.
pub(crate) fn add_lines(rt: &impl Abort, alloc: Global, lines: &[&str], text: &mut Vec<u8>) {
    let mut records = Vec::new(alloc);
    for line in lines {
        add_entry(&mut records, update(rt, alloc, line)).expect(rt, "there is memory");
    }
    write_records(alloc, &records, text).expect(rt, "there is memory");
}
