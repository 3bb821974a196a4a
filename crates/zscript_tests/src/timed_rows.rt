//! Worked scripts of nodes with a time to live.

use crate::playing::{Row, plays_rows};
use zscript::ServerId;
use ztesting::server;

// No server fails and none joins: the answer of each row is the same over one server and over
// three.
const ROWS: &[Row] = &[
    // A tick removes a node that was not written for its time to live.
    &[
        ("1 create /t t:2 -", "ok /t"),
        ("0 tick", "ok tick 1 ended 0"),
        ("1 set /t any aGk=", "ok stat 1 2 1 0 1 1 0 0 2 0"),
        ("0 tick", "ok tick 2 ended 0"),
        ("0 tick", "ok tick 3 ended 0 removed 1"),
        ("1 exists /t", "no NoNode"),
        ("1 exists /", "ok stat 0 0 3 0 0 0 2 0 0 0"),
    ],
    // A node that had a child before the tick remains, though the child goes.
    &[
        ("1 create /t t:1 -", "ok /t"),
        ("1 create /t/u t:1 -", "ok /t/u"),
        ("0 tick", "ok tick 1 ended 0 removed 1"),
        ("0 tick", "ok tick 2 ended 0 removed 1"),
        ("1 exists /", "ok stat 0 0 4 0 0 0 2 0 0 0"),
    ],
    // Ephemerals aren't counted among the removed.
    &[
        ("1 open 2", "ok session 1 timeout 2"),
        ("1 create /t t:1 -", "ok /t"),
        ("1 create /t/e e:1 -", "ok /t/e"),
        ("0 tick", "ok tick 1 ended 0"),
        ("0 tick", "ok tick 2 ended 1"),
        ("0 tick", "ok tick 3 ended 0 removed 1"),
    ],
    // A time to live outside its range is no kind.
    &[
        ("1 create /t t:0 -", "bad line"),
        ("1 create /t t:1048577 -", "bad line"),
        ("1 create t t:0 -", "bad line"),
        ("1 create t t:1 -", "bad path NotAbsolute"),
        ("1 create /s- ts:5 -", "ok /s-0000000000"),
    ],
];

#[test]
fn plays_the_rows_of_times_to_live(rt: HostRuntime) {
    plays_rows(&rt, rt.alloc(), ServerId::first(), ROWS);
    plays_rows(&rt, rt.alloc(), server(3), ROWS);
}
