//! The limits on nodes, on sessions and on paths.

use crate::machine::play::{Row, machine, plays, plays_more};
use std::alloc::Global;
use std::process::Abort;
use zops::Machine;

const BESIDE_4096_NODES: Row = &[
    ("7 create /0 p aGk=", "no Full"),
    ("7 create /1 p aGk=", "no NodeExists"),
    ("7 create /0/1 p aGk=", "no NoNode"),
];

const BESIDE_1024_SESSIONS: Row = &[
    ("3 open 20", "no TooManySessions"),
    ("3 close 512", "ok closed"),
    ("3 open 20", "ok session 1026 timeout 20"),
];

const BEFORE_LONG_NAMES: Row = &[
    ("1 open 20", "ok session 1 timeout 20"),
    ("1 create /e e:1 aGk=", "ok /e"),
];

const BEHIND_LONG_NAMES: Row = &[("7 create /b ps -", "ok /b0000000000")];

#[test]
fn holds_4096_nodes(rt: HostRuntime) {
    let mut machine = machine(&rt, rt.alloc());
    for number in 1..4096 {
        makes(&rt, rt.alloc(), &mut machine, number);
    }
    plays_more(&rt, rt.alloc(), &mut machine, BESIDE_4096_NODES);
    drop(machine);
}

// Makes the node that has this number as its name.
fn makes(rt: &impl Abort, alloc: Global, machine: &mut Machine, number: usize) {
    let line = format!(in alloc; "7 create /{number} p aGk=").expect(rt, "there is memory");
    let want = format!(in alloc; "ok /{number}").expect(rt, "there is memory");
    plays(rt, alloc, machine, &line, &want);
}

#[test]
fn holds_1024_sessions(rt: HostRuntime) {
    let mut machine = machine(&rt, rt.alloc());
    for number in 1..1025 {
        opens(&rt, rt.alloc(), &mut machine, number);
    }
    plays_more(&rt, rt.alloc(), &mut machine, BESIDE_1024_SESSIONS);
    drop(machine);
}

// Opens the session of this number.
fn opens(rt: &impl Abort, alloc: Global, machine: &mut Machine, number: usize) {
    let want = format!(in alloc; "ok session {number} timeout 20").expect(rt, "there is memory");
    plays(rt, alloc, machine, "3 open 20", &want);
}

#[test]
fn adds_no_digits_to_a_long_name(rt: HostRuntime) {
    let mut machine = machine(&rt, rt.alloc());
    plays_more(&rt, rt.alloc(), &mut machine, BEFORE_LONG_NAMES);
    plays_long_names(&rt, rt.alloc(), &mut machine, LONG_NAMES);
    plays_more(&rt, rt.alloc(), &mut machine, BEHIND_LONG_NAMES);
    drop(machine);
}

// A client, what precedes a long name, the kind of the node, and the answer.
type LongName = (usize, &'static str, &'static str, &'static str);

// Creates to whose paths no ten digits can be added. Some are refused for another reason that comes
// first.
const LONG_NAMES: &[LongName] = &[
    (7, "/", "ps", "no PathLimit"),
    (1, "/e/", "ps", "no NoChildrenForEphemerals"),
    (2, "/e/", "e:1", "no SessionGone"),
];

fn plays_long_names(rt: &impl Abort, alloc: Global, machine: &mut Machine, rows: &[LongName]) {
    for (client, front, kind, want) in rows {
        let line = long_line(rt, alloc, *client, front, kind);
        plays(rt, alloc, machine, &line, want);
        drop(line);
    }
}

// Returns a create of a name of 246 bytes after the front.
fn long_line(rt: &impl Abort, alloc: Global, client: usize, front: &str, kind: &str) -> String {
    let name = "a".repeat(alloc, 246).expect(rt, "there is memory");
    format!(in alloc; "{client} create {front}{name} {kind} aGk=").expect(rt, "there is memory")
}
