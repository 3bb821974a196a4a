//! Worked scripts of sessions. Others are in `rows/`, which the program plays.

use crate::playing::{Row, plays_rows};
use zscript::ServerId;
use ztesting::server;

// No server fails and none joins: the answer of each row is the same over one server and over
// three.
const ROWS: &[Row] = &[
    // Client 0 is the clock: it alone may call `tick`, and it calls nothing else.
    &[
        ("0 get /", "bad line"),
        ("0 get a", "bad line"),
        ("0 open 2", "bad line"),
        ("0 tick 1", "bad line"),
        ("1 tick", "bad line"),
        ("31 tick", "bad line"),
        ("0", "bad line"),
        ("0 tick", "ok tick 1 ended 0"),
    ],
    // The number of a session has one spelling, which is part of the form of its line.
    &[
        ("1 create a e: =", "bad line"),
        ("1 create a e:01 =", "bad line"),
        ("1 create a e:4611686018427387904 =", "bad line"),
        ("1 create a e1 =", "bad line"),
        ("1 create a es: =", "bad line"),
        ("1 create a ts: =", "bad line"),
        ("1 create a e:1:1 =", "bad line"),
        ("1 create a e:1 =", "bad path NotAbsolute"),
        ("1 create /a es:1 =", "bad data"),
    ],
    // So has every number.
    &[
        ("1 open", "bad line"),
        ("1 open 01", "bad line"),
        ("1 open -1", "bad line"),
        ("1 open 2 2", "bad line"),
        ("1 open 4611686018427387904", "bad line"),
        ("1 open 4611686018427387903", "ok session 1 timeout 20"),
        ("1 ping", "bad line"),
        ("1 ping /", "bad line"),
        ("1 close", "bad line"),
        ("1 close 1 1", "bad line"),
    ],
    // No session has the number 0, though it is well formed.
    &[
        ("1 ping 0", "no SessionGone"),
        ("1 close 0", "no SessionGone"),
        ("1 create /a e:0 -", "no SessionGone"),
        ("1 create /a es:0 -", "no SessionGone"),
        ("1 open 0", "ok session 1 timeout 2"),
        ("1 close 1", "ok closed"),
        ("1 close 1", "no SessionGone"),
    ],
    // A part of a multi can be of a session.
    &[
        ("1 open 2", "ok session 1 timeout 2"),
        (
            "1 multi create /q p - ; create /q/n- es:1 - ; create /q/m e:1 -",
            "ok multi /q ; /q/n-0000000000 ; /q/m",
        ),
        (
            "2 multi create /r p - ; create /r/n e:1 -",
            "no multi 2 SessionGone",
        ),
        ("1 ls /q", "ok 2 m n-0000000000"),
        ("1 multi check / any ; tick", "bad line"),
    ],
];

#[test]
fn plays_the_rows_of_sessions(rt: HostRuntime) {
    plays_rows(&rt, rt.alloc(), ServerId::first(), ROWS);
    plays_rows(&rt, rt.alloc(), server(3), ROWS);
}
