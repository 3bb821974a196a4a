//! Long scripts and their answers, built of parts.

use crate::playing::{adds, plays};
use Chunk::{Each, Text, Times};
use std::alloc::Global;
use std::process::Abort;

/// A part of a text.
pub(crate) enum Chunk {
    /// This text.
    Text(&'static str),
    /// This text, this many times.
    Times(&'static str, usize),
    /// Each number from 1 up to this one, between these texts.
    Each(&'static str, usize, &'static str),
}

/// Plays the script of these parts over one server, and asserts its answer, also in parts.
pub(crate) fn plays_chunks(rt: &impl Abort, alloc: Global, script: &[Chunk], text: &[Chunk]) {
    let script = built(rt, alloc, script);
    let text = built(rt, alloc, text);
    plays(rt, alloc, &script, &text, 65536);
    drop(script);
    drop(text);
}

fn built(rt: &impl Abort, alloc: Global, chunks: &[Chunk]) -> String {
    let mut text = String::new(alloc);
    for chunk in chunks {
        match chunk {
            Text(more) => adds(rt, &mut text, more),
            Times(more, count) => adds_times(rt, &mut text, more, *count),
            Each(before, last, behind) => adds_each(rt, &mut text, before, *last, behind),
        }
    }
    text
}

fn adds_times(rt: &impl Abort, text: &mut String, more: &str, count: usize) {
    for _ in 0..count {
        adds(rt, text, more);
    }
}

fn adds_each(rt: &impl Abort, text: &mut String, before: &str, last: usize, behind: &str) {
    for number in 1..=last {
        write!(text, "{before}{number}{behind}").expect(rt, "there is memory");
    }
}
