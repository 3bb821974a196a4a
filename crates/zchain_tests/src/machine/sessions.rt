//! Worked calls of sessions.

use crate::machine::play::{Row, plays_rows};

const ROWS: [Row; 3] = [
    // A session ends at its deadline, and its nodes with it, by one change.
    &[
        ("1 open 1", "ok session 1 timeout 2"),
        ("1 create /e e:1 aGk=", "ok /e"),
        ("1 create /b es:1 aGk=", "ok /b0000000000"),
        ("0 tick", "ok tick 1 ended 0"),
        ("0 tick", "ok tick 2 ended 1"),
        ("1 ping 1", "no SessionGone"),
        ("1 exists /e", "no NoNode"),
        ("1 exists /", "ok stat 0 0 4 0 0 0 4 0 0 0"),
    ],
    // It belongs to the client that opened it.
    &[
        ("1 open 100", "ok session 1 timeout 20"),
        ("1 create /e e:1 aGk=", "ok /e"),
        ("1 create /e/x p aGk=", "no NoChildrenForEphemerals"),
        ("2 create /f e:1 aGk=", "no SessionGone"),
        ("2 ping 1", "no SessionGone"),
        ("2 close 1", "no SessionGone"),
        ("1 close 1", "ok closed"),
        ("1 close 1", "no SessionGone"),
    ],
    // A ping renews it.
    &[
        ("5 open 3", "ok session 1 timeout 3"),
        ("0 tick", "ok tick 1 ended 0"),
        ("0 tick", "ok tick 2 ended 0"),
        ("5 ping 1", "ok pinged"),
        ("0 tick", "ok tick 3 ended 0"),
        ("0 tick", "ok tick 4 ended 0"),
        ("0 tick", "ok tick 5 ended 1"),
        ("5 open 20", "ok session 3 timeout 20"),
    ],
];

#[test]
fn plays_sessions(rt: HostRuntime) {
    plays_rows(&rt, rt.alloc(), &ROWS);
}
