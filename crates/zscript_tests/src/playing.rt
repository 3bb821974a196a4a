//! How a test plays a script.

ghost use Rattle.std.specs.Prelude.{◌<◌};

use std::alloc::Global;
use std::process::Abort;
use zscript::{ServerId, SliceSource, VecSink, play};

/// Lines, each with its answer.
pub(crate) type Row = &'static [(&'static str, &'static str)];

/// Plays the lines of each row as a script of its own, over the servers up to `last`: in large
/// blocks, and byte by byte.
pub(crate) fn plays_rows(rt: &impl Abort, alloc: Global, last: ServerId, rows: &[Row]) {
    for row in rows {
        let (script, text) = joined(rt, alloc, row);
        plays_over(rt, alloc, last, &script, &text, 65536);
        plays_over(rt, alloc, last, &script, &text, 1);
        drop(script);
        drop(text);
    }
}

/// Plays a script over one server.
pub(crate) fn plays(rt: &impl Abort, alloc: Global, script: &str, text: &str, at_most: usize)
    requires { 0 < at_most }
{
    plays_over(rt, alloc, ServerId::first(), script, text, at_most);
}

// Plays a script over the servers up to `last`, by at most `at_most` bytes a read and a write, and
// asserts that this is its answer.
fn plays_over(
    rt: &impl Abort,
    alloc: Global,
    last: ServerId,
    script: &str,
    text: &str,
    at_most: usize,
)
    requires { 0 < at_most }
{
    let mut source = SliceSource::new(script.as_bytes(), at_most);
    let mut sink = VecSink::new(alloc, at_most);
    let result = play(alloc, &mut source, &mut sink, last);
    let is_answer = sink.bytes() == text.as_bytes();
    drop(sink);
    assert!(rt; result == Ok(()) && is_answer, "{script:?}");
}

// Returns the lines of a row, and their answers.
fn joined(rt: &impl Abort, alloc: Global, row: Row) -> (String, String) {
    let mut script = String::new(alloc);
    let mut text = String::new(alloc);
    for (line, answer) in row {
        ends_line(rt, &mut script, line);
        ends_line(rt, &mut text, answer);
    }
    (script, text)
}

fn ends_line(rt: &impl Abort, text: &mut String, line: &str) {
    adds(rt, text, line);
    adds(rt, text, "\n");
}

/// Appends to a text.
pub(crate) fn adds(rt: &impl Abort, text: &mut String, more: &str) {
    text.push_str(more).expect(rt, "there is memory");
}
