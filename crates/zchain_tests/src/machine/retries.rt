//! Entries that come again, and copies of a machine.

use crate::machine::play::{Entries, machine, plays_entries};
use std::alloc::Global;
use std::process::Abort;
use zops::Machine;

const ROWS: [(Entries, u64); 3] = [
    // An update acts once: it is answered again while its reply is cached, and later not at all.
    (
        &[
            (1, "2 create /q p aGk=", "ok /q"),
            (0, "1 ping 1", ""),
            (1, "1 create /q/n- ps aGk=", "ok /q/n-0000000000"),
            (1, "1 create /q/n- ps aGk=", "ok /q/n-0000000000"),
            (2, "1 delete /none any", "no NoNode"),
            (1, "1 create /q/n- ps aGk=", ""),
            (2, "1 delete /q any", "no NoNode"),
            (0, "1 exists /q", "ok stat 1 1 2 0 0 0 1 0 2 1"),
        ],
        7,
    ),
    // A session opens once, and ends once.
    (
        &[
            (1, "1 open 5", "ok session 1 timeout 5"),
            (1, "1 open 5", "ok session 1 timeout 5"),
            (1, "2 open 5", "ok session 2 timeout 5"),
            (1, "1 open 7", "ok session 1 timeout 5"),
            (2, "1 close 1", "ok closed"),
            (2, "1 close 1", "ok closed"),
            (3, "1 close 1", "no SessionGone"),
        ],
        7,
    ),
    // A multi is done once.
    (
        &[
            (
                3,
                "1 multi create /n- ps aGk= ; set /n-0000000000 0 -",
                "ok multi /n-0000000000 ; stat 1 1 1 0 0 1 0 0 0 0",
            ),
            (
                3,
                "1 multi create /n- ps aGk= ; set /n-0000000000 0 -",
                "ok multi /n-0000000000 ; stat 1 1 1 0 0 1 0 0 0 0",
            ),
            (1, "1 multi create /n- ps aGk=", ""),
            (0, "1 ls /", "ok 1 n-0000000000"),
        ],
        3,
    ),
];

const BEFORE: Entries = &[
    (1, "1 create /a p aGk=", "ok /a"),
    (4, "2 delete /none any", "no NoNode"),
    (2, "1 create /a/b p aGk=", "ok /a/b"),
];

const LATER: Entries = &[
    (2, "1 delete /a any", "ok /a/b"),
    (4, "2 delete /a/b any", "no NoNode"),
    (3, "2 delete /a/b any", ""),
    (1, "3 create /c p aGk=", "ok /c"),
    (0, "3 ls /", "ok 2 a c"),
];

#[test]
fn acts_once(rt: HostRuntime) {
    act_once(&rt, rt.alloc(), &ROWS);
}

fn act_once(rt: &impl Abort, alloc: Global, rows: &[(Entries, u64)]) {
    for (entries, want) in rows {
        let machine = played(rt, alloc, entries);
        assert!(rt; machine.applied() == *want);
        drop(machine);
    }
}

#[test]
fn copies_answer_alike_and_go_their_own_way(rt: HostRuntime) {
    let mut machine = played(&rt, rt.alloc(), BEFORE);
    let mut copy = machine.copy().expect(&rt, "there is memory");
    plays_entries(&rt, rt.alloc(), &mut copy, LATER);
    plays_entries(&rt, rt.alloc(), &mut machine, LATER);
    assert!(rt; copy.applied() == 7 && machine.applied() == 7);
    drop(copy);
    drop(machine);
}

// Returns a machine on which these entries were played.
fn played(rt: &impl Abort, alloc: Global, entries: Entries) -> Machine {
    let mut machine = machine(rt, alloc);
    plays_entries(rt, alloc, &mut machine, entries);
    machine
}
