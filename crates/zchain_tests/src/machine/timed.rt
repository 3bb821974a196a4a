//! Worked calls on nodes with a time to live.

use crate::machine::play::{Row, plays_rows};

const ROWS: [Row; 4] = [
    // A tick removes a node that was not written for its time to live; a set restarts that time.
    &[
        ("1 create /t t:2 aGk=", "ok /t"),
        ("0 tick", "ok tick 1 ended 0"),
        ("1 set /t any aGk=", "ok stat 1 2 1 0 1 1 0 0 2 0"),
        ("0 tick", "ok tick 2 ended 0"),
        ("0 tick", "ok tick 3 ended 0 removed 1"),
        ("1 exists /t", "no NoNode"),
        ("1 exists /", "ok stat 0 0 3 0 0 0 2 0 0 0"),
    ],
    // A node that had a child before the tick remains, though the child goes.
    &[
        ("1 create /t t:1 aGk=", "ok /t"),
        ("1 create /t/u t:1 aGk=", "ok /t/u"),
        ("0 tick", "ok tick 1 ended 0 removed 1"),
        ("0 tick", "ok tick 2 ended 0 removed 1"),
        ("1 exists /", "ok stat 0 0 4 0 0 0 2 0 0 0"),
    ],
    // Sessions that end and nodes that go are one change, and ephemerals aren't counted.
    &[
        ("1 open 2", "ok session 1 timeout 2"),
        ("1 create /e e:1 aGk=", "ok /e"),
        ("1 create /t t:2 aGk=", "ok /t"),
        ("1 create /t-t ts:2 aGk=", "ok /t-t0000000000"),
        ("0 tick", "ok tick 1 ended 0"),
        ("0 tick", "ok tick 2 ended 1 removed 2"),
        ("1 exists /", "ok stat 0 0 5 0 0 0 6 0 0 0"),
    ],
    // A multi that is refused leaves each of them in its list.
    &[
        ("1 create /t t:1 aGk=", "ok /t"),
        (
            "1 multi delete /t any ; create /u t:1 aGk= ; check /v any",
            "no multi 3 NoNode",
        ),
        ("0 tick", "ok tick 1 ended 0 removed 1"),
        ("1 exists /", "ok stat 0 0 2 0 0 0 2 0 0 0"),
    ],
];

#[test]
fn plays_times_to_live(rt: HostRuntime) {
    plays_rows(&rt, rt.alloc(), &ROWS);
}
