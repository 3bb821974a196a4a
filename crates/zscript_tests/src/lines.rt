//! Where a script's lines end, and the alphabet of its data.

use crate::playing::plays;

// An empty script, and scripts whose last line has no LF.
const ENDS: &[(&str, &str)] = &[
    ("", ""),
    ("\n", "bad line\n"),
    ("1 exists /", "ok stat 0 0 0 0 0 0 0 0 0 0\n"),
    (
        "1 create /a p aGk=\n1 get /a",
        "ok /a\nok data aGk= stat 1 1 1 0 0 0 0 0 2 0\n",
    ),
];

#[test]
fn ends_its_lines(rt: HostRuntime) {
    for (script, text) in ENDS {
        plays(&rt, rt.alloc(), script, text, 65536);
        plays(&rt, rt.alloc(), script, text, 1);
    }
}

// The example of RFC 4648, section 9, and the alphabet of its table 1.
#[test]
fn data_is_the_rfcs_base64(rt: HostRuntime) {
    plays(
        &rt,
        rt.alloc(),
        "1 create /a p FPucA9l+\n1 get /a\n1 create /b p ABCDEFGHIJKLMNOPQRSTUVWXYZabcdefghijklmnopqrstuvwxyz0123456789+/\n1 get /b\n",
        "ok /a\nok data FPucA9l+ stat 1 1 1 0 0 0 0 0 6 0\nok /b\nok data ABCDEFGHIJKLMNOPQRSTUVWXYZabcdefghijklmnopqrstuvwxyz0123456789+/ stat 2 2 2 0 0 0 0 0 48 0\n",
        65536,
    );
}
