//! Worked scripts over chains: each kind of event is done once. An answer begins with the lines of
//! the responses that clients received. The scripts of failures and joins are in `rows/`, which the
//! program plays.

use crate::playing::{Row, plays_rows};
use zscript::ServerId;
use ztesting::server;

const OVER_ONE: &[Row] = &[
    // A request is lost, and sent again where the world settles.
    &[
        ("1 begin create /a p -", "begun"),
        ("ignore c1 s1", "done"),
        ("take c1 s1", "idle"),
        ("settle", "c1 ok /a\nquiet"),
    ],
];

const OVER_TWO: &[Row] = &[
    // The tail fails while a server joins: the snapshot that was in flight has an old epoch, and is
    // ignored.
    &[
        ("1 create /a p aGk=", "ok /a"),
        ("join s3", "done"),
        ("take m s3", "done"),
        ("take s3 m", "done"),
        ("take m s2", "done"),
        ("1 begin create /b p -", "begun"),
        ("take c1 s1", "done"),
        ("fail s2", "done"),
        ("take s2 m", "done"),
        ("take m s3", "done"),
        ("take s2 s3", "done"),
        ("settle", "c1 ok /b\nquiet"),
        ("1 ls /", "ok 2 a b"),
    ],
];

const OVER_THREE: &[Row] = &[
    // A call that is sent twice acts once.
    &[
        ("1 create /q p -", "ok /q"),
        ("1 begin create /q/n- ps -", "begun"),
        ("take c1 s1", "done"),
        ("retry c1", "done"),
        ("settle", "c1 ok /q/n-0000000000\nquiet"),
        ("1 create /q/n- ps -", "ok /q/n-0000000001"),
    ],
    // The tail is ordered to leave.
    &[
        ("retire s3", "done"),
        ("settle", "quiet"),
        ("retire s3", "no NotMember"),
    ],
];

#[test]
fn plays_over_one_server(rt: HostRuntime) {
    plays_rows(&rt, rt.alloc(), ServerId::first(), OVER_ONE);
}

#[test]
fn plays_over_two_servers(rt: HostRuntime) {
    plays_rows(&rt, rt.alloc(), server(2), OVER_TWO);
}

#[test]
fn plays_over_three_servers(rt: HostRuntime) {
    plays_rows(&rt, rt.alloc(), server(3), OVER_THREE);
}
