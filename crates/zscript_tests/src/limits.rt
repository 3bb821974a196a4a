//! The limits of the text and of the service.

use crate::chunks::Chunk::{Each, Text, Times};
use crate::chunks::{Chunk, plays_chunks};

const LONGEST_NAME: &[Chunk] = &[
    Text("1 create /"),
    Times("a", 255),
    Text(" p -\n1 create /"),
    Times("a", 256),
    Text(" p -\n"),
];

const ITS_ANSWER: &[Chunk] = &[
    Text("ok /"),
    Times("a", 255),
    Text("\nbad path NameTooLong\n"),
];

#[test]
fn knows_the_longest_name(rt: HostRuntime) {
    plays_chunks(&rt, rt.alloc(), LONGEST_NAME, ITS_ANSWER);
}

// The counter doesn't change where the made name is too long.
const SEQUENTIAL_NAMES: &[Chunk] = &[
    Text("1 create /"),
    Times("a", 245),
    Text(" ps -\n1 create /"),
    Times("a", 246),
    Text(" ps -\n1 create /b ps -\n1 create / ps -\n"),
];

const MADE_NAMES: &[Chunk] = &[
    Text("ok /"),
    Times("a", 245),
    Text("0000000000\nno PathLimit\nok /b0000000001\nno NodeExists\n"),
];

#[test]
fn knows_the_longest_sequential_name(rt: HostRuntime) {
    plays_chunks(&rt, rt.alloc(), SEQUENTIAL_NAMES, MADE_NAMES);
}

const MOST_DATA: &[Chunk] = &[
    Text("1 create /a p "),
    Times("QUFB", 21845),
    Text("QQ==\n1 create /b p "),
    Times("QUFB", 21845),
    Text("QUE=\n"),
];

#[test]
fn knows_the_most_data(rt: HostRuntime) {
    plays_chunks(&rt, rt.alloc(), MOST_DATA, &[Text("ok /a\nbad data\n")]);
}

const MOST_PARTS: &[Chunk] = &[
    Text("1 multi check / 0"),
    Times(" ; check / 0", 63),
    Text("\n1 multi check / 0"),
    Times(" ; check / 0", 64),
    Text("\n"),
];

const CHECKED_PARTS: &[Chunk] = &[
    Text("ok multi checked"),
    Times(" ; checked", 63),
    Text("\nbad line\n"),
];

#[test]
fn knows_the_most_parts(rt: HostRuntime) {
    plays_chunks(&rt, rt.alloc(), MOST_PARTS, CHECKED_PARTS);
}

const LONG_LINES: &[&[Chunk]] = &[
    &[Times("x", 524288), Text("\n1 ls /\n")],
    &[Times("x", 524289), Text("\n1 ls /\n")],
    &[Times("x", 700000), Text("\n1 ls /\n")],
];

#[test]
fn answers_long_lines(rt: HostRuntime) {
    for script in LONG_LINES {
        plays_chunks(&rt, rt.alloc(), script, &[Text("bad line\nok 0\n")]);
    }
}

const SESSIONS: &[Chunk] = &[
    Each("ok session ", 1024, " timeout 2\n"),
    Text("no TooManySessions\n"),
];

#[test]
fn opens_1024_sessions(rt: HostRuntime) {
    plays_chunks(&rt, rt.alloc(), &[Times("1 open 2\n", 1025)], SESSIONS);
}
