//! A text that was cut or changed.

use crate::snapshots::machines::{TEN, joined, machine, rows};
use crate::snapshots::read::read;
use std::alloc::Global;
use std::process::Abort;
use zsnapshots::RowFault;

// The text of a state with ten nodes.
fn text(rt: &impl Abort, alloc: Global) -> Vec<u8> {
    let machine = machine(rt, alloc, TEN);
    let rows = rows(rt, alloc, &machine);
    joined(rt, alloc, &rows)
}

// Whether the text begins with no machine, or with one that has these rows.
fn is_reported(rt: &impl Abort, alloc: Global, text: &[u8]) -> bool {
    let (machine, rest) = match read(rt, alloc, text) {
        Ok(read) => read,
        Err(_) => return true,
    };
    let rows = rows(rt, alloc, &machine);
    let mut found = joined(rt, alloc, &rows);
    found.extend_from_slice(rest).expect(rt, "there is memory");
    found.as_slice() == text
}

#[test]
fn a_cut_text_is_reported(rt: HostRuntime) {
    let alloc = rt.alloc();
    let text = text(&rt, alloc);
    assert!(rt; text.len() > 1000);
    for len in 0..text.len() {
        assert_eq!(rt;
            read(&rt, alloc, &text[..len]).err(),
            Some(RowFault::Cut),
            "{len} bytes"
        );
    }
    assert!(rt; read(&rt, alloc, &text).is_ok());
}

#[test]
fn a_changed_byte_is_reported(rt: HostRuntime) {
    let alloc = rt.alloc();
    let mut text = text(&rt, alloc);
    for place in 0..text.len() {
        let byte = text[place];
        for other in [
            byte ^ 1,
            byte ^ 128,
            byte.wrapping_add(1),
            byte.wrapping_sub(1),
        ] {
            text[place] = other;
            assert!(rt; is_reported(&rt, alloc, &text), "byte {place} is {other}");
        }
        text[place] = byte;
    }
}
