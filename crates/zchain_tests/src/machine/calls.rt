//! Worked calls of one node.

use crate::machine::play::{Row, plays_rows};

const ROWS: [Row; 3] = [
    // Nodes are made; a refused call takes no zxid.
    &[
        ("7 create /q p aGk=", "ok /q"),
        ("7 create /q/n- ps aGk=", "ok /q/n-0000000000"),
        ("7 create /q/n- ps aGk=", "ok /q/n-0000000001"),
        ("7 create /q p aGk=", "no NodeExists"),
        ("7 create /x/y p aGk=", "no NoNode"),
        ("7 create /x/n- ps aGk=", "no NoNode"),
        ("7 ls /q", "ok 2 n-0000000000 n-0000000001"),
        ("7 exists /q", "ok stat 1 1 3 0 0 0 2 0 2 2"),
    ],
    // A sequential create that is refused takes no number.
    &[
        ("7 create / ps aGk=", "no NodeExists"),
        ("7 create /b es:9 aGk=", "no SessionGone"),
        ("7 create /b ps aGk=", "ok /b0000000000"),
        ("7 create /b0000000001 p aGk=", "ok /b0000000001"),
        ("7 create /b ps aGk=", "no NodeExists"),
        ("7 delete /b0000000001 any", "ok deleted"),
        ("7 create /b ps aGk=", "ok /b0000000001"),
        ("7 ls /", "ok 2 b0000000000 b0000000001"),
    ],
    // A version is that of the data.
    &[
        ("7 create /a p aGk=", "ok /a"),
        ("7 set /a 1 -", "no BadVersion"),
        ("7 set /a any -", "ok stat 1 2 1 0 0 1 0 0 0 0"),
        ("7 set /none any -", "no NoNode"),
        ("7 multi check /a 1", "ok multi checked"),
        ("7 multi check /a 0", "no multi 1 BadVersion"),
        ("7 multi check /none any", "no multi 1 NoNode"),
        ("7 delete /a 0", "no BadVersion"),
        ("7 delete /a 1", "ok deleted"),
        ("7 delete /a any", "no NoNode"),
        ("7 exists /a", "no NoNode"),
    ],
];

#[test]
fn plays_calls(rt: HostRuntime) {
    plays_rows(&rt, rt.alloc(), &ROWS);
}
