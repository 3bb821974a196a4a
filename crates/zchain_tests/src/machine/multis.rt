//! Worked multis.

use crate::machine::play::{Row, plays_rows};
use std::alloc::Global;
use std::process::Abort;
use zops::{Check, Expected, MAX_PARTS, Multi, Part};
use zpath::Path;

const ROWS: [Row; 3] = [
    // A multi that is refused leaves all as it was, and takes no number.
    &[
        (
            "7 multi create /n- ps aGk= ; delete /none any ; check / any",
            "no multi 2 NoNode",
        ),
        ("7 exists /", "ok stat 0 0 0 0 0 0 0 0 0 0"),
        ("7 multi create /n- ps aGk=", "ok multi /n-0000000000"),
        ("7 ls /", "ok 1 n-0000000000"),
    ],
    // A multi that is done takes one zxid.
    &[
        (
            "7 multi create /b p aGk= ; create /a p - ; check /a 0 ; set /a 0 - ; create /a/c p - ; delete /a/c any",
            "ok multi /b ; /a ; checked ; stat 1 1 1 0 0 1 0 0 0 0 ; /a/c ; deleted",
        ),
        ("7 exists /", "ok stat 0 0 1 0 0 0 2 0 0 2"),
        ("7 get /b", "ok data aGk= stat 1 1 1 0 0 0 0 0 2 0"),
    ],
    // A multi that is refused at its end restores what its parts removed, wrote and counted.
    &[
        ("7 create /q p -", "ok /q"),
        ("7 create /q/e p aGk=", "ok /q/e"),
        (
            "7 multi delete /q/e any ; create /q/n- ps - ; set /q any eA== ; create /q p -",
            "no multi 4 NodeExists",
        ),
        ("7 get /q", "ok data - stat 1 1 2 0 0 0 1 0 0 1"),
        ("7 get /q/e", "ok data aGk= stat 2 2 2 0 0 0 0 0 2 0"),
        (
            "7 multi delete /q/e any ; create /q/n- ps - ; set /q any eA==",
            "ok multi deleted ; /q/n-0000000000 ; stat 1 3 3 0 0 1 3 0 1 1",
        ),
    ],
];

#[test]
fn plays_multis(rt: HostRuntime) {
    plays_rows(&rt, rt.alloc(), &ROWS);
}

#[test]
fn takes_1_to_64_parts(rt: HostRuntime) {
    for (count, is_taken) in [(0, false), (1, true), (MAX_PARTS, true), (65, false)] {
        assert!(rt; taken(&rt, rt.alloc(), count) == (is_taken, count));
    }
}

// Returns whether this many checks are accepted as a multi, and how many of them it has then.
fn taken(rt: &impl Abort, alloc: Global, count: usize) -> (bool, usize) {
    match Multi::new(checks(rt, alloc, count)) {
        Ok(multi) => (true, multi.as_slice().len()),
        Err(back) => (false, back.len()),
    }
}

// Returns this many checks of the root.
fn checks(rt: &impl Abort, alloc: Global, count: usize) -> Vec<Part> {
    let mut parts = Vec::new(alloc);
    for _ in 0..count {
        let check = Check {
            path: Path::root(),
            version: Expected::Any,
        };
        parts.push(Part::Check(check)).expect(rt, "there is memory");
    }
    parts
}
