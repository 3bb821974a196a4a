//! What was written is read, and written again.

use crate::snapshots::loaded::load;
use crate::snapshots::machines::{REPLIES, SESSIONS, TEN, joined, machine, rows, tree_rows};
use crate::snapshots::read::read;
use std::alloc::Global;
use std::process::Abort;
use zops::Machine;

// Rows are loaded one by one, and their machine has the same rows.
fn is_loaded_again(rt: &impl Abort, alloc: Global, wanted: &[Vec<u8>]) {
    let machine = load(alloc, wanted).expect(rt, "the rows are a machine's");
    let found = rows(rt, alloc, &machine);
    assert!(rt; found.as_slice() == wanted);
}

// Rows are read from the front of a text, and their machine has the same rows.
fn is_read_again(rt: &impl Abort, alloc: Global, wanted: &[Vec<u8>]) {
    let mut text = joined(rt, alloc, wanted);
    text.extend_from_slice(b"more")
        .expect(rt, "there is memory");
    let (machine, rest) = read(rt, alloc, &text).expect(rt, "the text is a machine's");
    assert!(rt; rest == b"more".as_slice());
    let found = rows(rt, alloc, &machine);
    assert!(rt; found.as_slice() == wanted);
}

#[test]
fn states_are_read_again(rt: HostRuntime) {
    let alloc = rt.alloc();
    let states: [&[&str]; 4] = [&[], SESSIONS, REPLIES, TEN];
    for lines in states {
        let machine = machine(&rt, alloc, lines);
        let all = rows(&rt, alloc, &machine);
        is_loaded_again(&rt, alloc, &all);
        is_read_again(&rt, alloc, &all);
    }
}

#[test]
fn trees_are_read_again(rt: HostRuntime) {
    let alloc = rt.alloc();
    let states: [&[&str]; 4] = [&[], SESSIONS, REPLIES, TEN];
    for lines in states {
        let machine = machine(&rt, alloc, lines);
        let all = tree_rows(&rt, alloc, &machine);
        is_loaded_again(&rt, alloc, &all);
        let read = load(alloc, &all).expect(&rt, "the rows are a machine's");
        assert_eq!(rt; read.applied(), 0);
    }
}

// The numbers of rows of a whole state and of its tree alone.
fn counts(rt: &impl Abort, alloc: Global, lines: &[&str]) -> (usize, usize) {
    let machine = machine(rt, alloc, lines);
    let all = rows(rt, alloc, &machine).len();
    let tree = tree_rows(rt, alloc, &machine).len();
    (all, tree)
}

#[test]
fn each_row_is_there(rt: HostRuntime) {
    let alloc = rt.alloc();
    // A header and the root alone.
    assert_eq!(rt; counts(&rt, alloc, &[]), (2, 2));
    // Beside them three sessions, six nodes, and replies to four clients.
    assert_eq!(rt; counts(&rt, alloc, SESSIONS), (15, 11));
    // Two sessions, a node, and replies to eleven clients.
    assert_eq!(rt; counts(&rt, alloc, REPLIES), (16, 5));
}
