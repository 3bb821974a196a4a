//! Worked scripts, each a script of its own: lines, each with its answer. Others are in `rows/`,
//! which the program plays.

use crate::playing::{Row, plays_rows};
use zscript::ServerId;
use ztesting::server;

// No server fails and none joins: the answer of each row is the same over one server and over
// three.
const ROWS: &[Row] = &[
    // A node is made, and read.
    &[
        ("1 create /a p aGk=", "ok /a"),
        ("1 get /a", "ok data aGk= stat 1 1 1 0 0 0 0 0 2 0"),
    ],
    // The root is there from the beginning.
    &[
        ("1 exists /", "ok stat 0 0 0 0 0 0 0 0 0 0"),
        ("1 ls /", "ok 0"),
        ("1 ls /none", "no NoNode"),
        ("1 exists /none", "no NoNode"),
    ],
    // The first fault of a path is named.
    &[
        ("1 get a", "bad path NotAbsolute"),
        ("1 get /a//b", "bad path EmptyName"),
        ("1 get /a/", "bad path EmptyName"),
        ("1 get /..", "bad path DotName"),
        ("1 get /zookeeper/x", "bad path Reserved"),
        (
            "1 get /a/a/a/a/a/a/a/a/a/a/a/a/a/a/a/a/a/a/a/a/a/a/a/a/a/a/a/a/a/a/a/a/a/a/a/a/a/a/a/a/a/a/a/a/a/a/a/a/a/a/a/a/a/a/a/a/a/a/a/a/a/a/a/a",
            "no NoNode",
        ),
        (
            "1 get /a/a/a/a/a/a/a/a/a/a/a/a/a/a/a/a/a/a/a/a/a/a/a/a/a/a/a/a/a/a/a/a/a/a/a/a/a/a/a/a/a/a/a/a/a/a/a/a/a/a/a/a/a/a/a/a/a/a/a/a/a/a/a/a/a",
            "bad path TooDeep",
        ),
    ],
    // Creates and deletes that are refused. A sequential create that is refused doesn't raise the
    // counter.
    &[
        ("1 create / p -", "no NodeExists"),
        ("1 create / ps -", "no NodeExists"),
        ("1 delete / any", "no RootFixed"),
        ("1 create /x/y p -", "no NoNode"),
        ("1 create /q p -", "ok /q"),
        ("1 create /q p -", "no NodeExists"),
        ("1 create /q/n-0000000000 p -", "ok /q/n-0000000000"),
        ("1 create /q/n- ps -", "no NodeExists"),
        ("1 delete /q any", "no NotEmpty"),
        ("1 delete /q/n-0000000000 any", "ok deleted"),
        ("1 create /q/n- ps -", "ok /q/n-0000000000"),
    ],
    // A node's parent counts it, and its own data may be empty.
    &[
        ("1 create /a p -", "ok /a"),
        ("31 create /a/b p eA==", "ok /a/b"),
        ("2 get /a", "ok data - stat 1 1 2 0 0 0 1 0 0 1"),
        ("2 get /", "ok data - stat 0 0 1 0 0 0 1 0 0 1"),
        ("1 set / 4611686018427387903 -", "no BadVersion"),
        ("1 delete /none 4611686018427387903", "no NoNode"),
    ],
    // Lines that don't have the form of a line.
    &[
        ("1 create /a p aGk", "bad data"),
        ("1 multi", "bad line"),
        ("1 get", "bad line"),
        ("1 tick", "bad line"),
        ("", "bad line"),
        ("01 get /", "bad line"),
        ("1  get /", "bad line"),
        ("32 get /", "bad line"),
        ("0 get /", "bad line"),
        (" 1 get /", "bad line"),
        ("1 get / ", "bad line"),
        ("1 get /\r", "bad line"),
        ("1 get /a /b", "bad line"),
        ("1 put /a p -", "bad line"),
        ("1 exists", "bad line"),
        ("1 ls / /", "bad line"),
        ("1 check /a any", "bad line"),
        ("1 check a any", "bad line"),
        ("1 delete /a 01", "bad line"),
        ("1 delete /a -1", "bad line"),
        ("1 delete /a 4611686018427387904", "bad line"),
        ("1 set /a any", "bad line"),
        ("1 set /a - any", "bad line"),
        ("1 set / 4611686018427387904 -", "bad line"),
        ("1 delete /a any -", "bad line"),
        ("1 create /a s -", "bad line"),
        ("1 create a e: aGk", "bad line"),
    ],
    // The leftmost path or data that is refused is reported.
    &[
        ("1 create a p aGk", "bad path NotAbsolute"),
        ("1 create /a p aGk", "bad data"),
        ("1 create /a p =", "bad data"),
        ("1 create /a p aGl=", "bad data"),
        ("1 create /a p YQ", "bad data"),
        ("1 set /a 0 =", "bad data"),
        ("1 multi create /a p = ; delete b any", "bad data"),
        (
            "1 multi delete b any ; create /a p =",
            "bad path NotAbsolute",
        ),
        ("1 multi set b any =", "bad path NotAbsolute"),
        ("1 multi create a p - ; put", "bad line"),
        ("1 create /a p YQ==", "ok /a"),
        ("1 get /a", "ok data YQ== stat 1 1 1 0 0 0 0 0 1 0"),
    ],
    // `;` is a word like any other where a path or data is expected, and separates two parts.
    &[
        ("1 multi create ; p -", "bad path NotAbsolute"),
        ("1 multi create /a p ; ; check /a any", "bad data"),
        ("1 delete ; any", "bad path NotAbsolute"),
        ("1 get ;", "bad path NotAbsolute"),
        ("1 get /a;b", "no NoNode"),
        ("; get /", "bad line"),
        ("1 multi create /a p - ;", "bad line"),
        ("1 multi create /a p - ; ; check /a any", "bad line"),
        ("1 multi ; check /a any", "bad line"),
        ("1 multi create /a p - check /a any", "bad line"),
        ("1 multi ;", "bad line"),
        ("1 create /a p - ; check /a any", "bad line"),
    ],
];

#[test]
fn plays_the_rows(rt: HostRuntime) {
    plays_rows(&rt, rt.alloc(), ServerId::first(), ROWS);
    plays_rows(&rt, rt.alloc(), server(3), ROWS);
}
