//! A text that was cut or changed.

use crate::folder::rounds::keeps;
use crate::folder::states::{STORIES, WORKED, add_lines, snapshot_of};
use std::alloc::Global;
use std::process::Abort;
use zsnapshots::folder::{ReadFault, read};

// What follows a snapshot.
const MORE: &[&str] = &["1 open 10", "1 create /c es:6 aGk=", "0 tick", "1 close 6"];

// The text of a snapshot, with this many entries after it.
fn text(rt: &impl Abort, alloc: Global, count: usize) -> Vec<u8> {
    assert!(rt; count <= MORE.len());
    let mut text = snapshot_of(rt, alloc, WORKED);
    add_lines(rt, alloc, &MORE[..count], &mut text);
    text
}

// A text may end at the beginning, after the snapshot and after each entry.
fn ends(rt: &impl Abort, alloc: Global) -> Vec<usize> {
    let mut ends = Vec::new(alloc);
    ends.push(0).expect(rt, "there is memory");
    for count in 0..=MORE.len() {
        let len = text(rt, alloc, count).len();
        ends.push(len).expect(rt, "there is memory");
    }
    ends
}

// Whether a text represents a tree.
fn is_read(rt: &impl Abort, alloc: Global, text: &[u8]) -> bool {
    match read(alloc, text) {
        Ok(found) => {
            drop(found);
            true
        }
        Err(fault) => {
            assert!(rt; fault == ReadFault::NotRecords);
            false
        }
    }
}

#[test]
fn a_cut_text_is_reported(rt: HostRuntime) {
    let alloc = rt.alloc();
    let text = text(&rt, alloc, MORE.len());
    let ends = ends(&rt, alloc);
    for len in 0..=text.len() {
        let is_whole = is_read(&rt, alloc, &text[..len]);
        assert!(rt; is_whole == ends.contains(&len), "{len} bytes");
    }
}

// Whether a text represents no tree, or is the snapshot of the one that it represents.
fn is_reported(rt: &impl Abort, alloc: Global, text: &[u8]) -> bool {
    !is_read(rt, alloc, text) || keeps(rt, alloc, text, text)
}

// Each byte of the snapshot of these lines' tree is changed.
fn each_byte_is_reported(rt: &impl Abort, alloc: Global, lines: &[&str]) {
    let mut text = snapshot_of(rt, alloc, lines);
    for place in 0..text.len() {
        let byte = text[place];
        for other in [
            byte ^ 1,
            byte ^ 128,
            byte.wrapping_add(1),
            byte.wrapping_sub(1),
        ] {
            text[place] = other;
            assert!(rt; is_reported(rt, alloc, &text), "byte {place} is {other}");
        }
        text[place] = byte;
    }
}

#[test]
fn a_changed_byte_is_reported(rt: HostRuntime) {
    let alloc = rt.alloc();
    for lines in STORIES {
        each_byte_is_reported(&rt, alloc, lines);
    }
}
