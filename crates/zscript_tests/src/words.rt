//! A program's words, and what it reports.

use std::alloc::Global;
use std::process::Abort;
use zarguments::WordsFault;
use zcommand::{command, settings};
use zscript::{SliceSource, VecSink};

// Words, each with the number of servers that they ask for.
const GOOD: &[(&str, u8)] = &[
    ("zk script", 1),
    ("zk script --servers 1", 1),
    ("zk script --servers=1", 1),
    ("zk script --servers 2", 2),
    ("zk script --servers 3", 3),
    ("zk script --servers 4", 4),
    ("zk script --servers 5", 5),
    ("zk script --servers 6", 6),
    ("zk script --servers 7", 7),
    ("zk script --servers 16", 16),
];

const BAD: &[&str] = &[
    "zk",
    "zk race",
    "zk --help",
    "zk help",
    "zk script --help",
    "zk script more",
    "zk script --servers",
    "zk script --servers 0",
    "zk script --servers 17",
    "zk script --servers 257",
    "zk script --servers one",
    "zk script --servers 1 --servers 1",
    "zk --servers 1 script",
];

// Words, after how many reads one fails, and after how many writes; then the status, and what is
// reported.
const TOLD: &[(&str, u64, u64, u8, &str)] = &[
    ("zk script", 9, 9, 0, ""),
    ("zk script", 1, 9, 1, "zk: read failed\n"),
    ("zk script", 9, 0, 1, "zk: write failed\n"),
    ("zk", 9, 9, 2, "zk: bad words\n"),
];

#[test]
fn reads_good_words(rt: HostRuntime) {
    for (text, count) in GOOD {
        let asked = servers_of(&rt, rt.alloc(), text);
        assert!(rt; asked == Ok(*count), "{text}");
    }
}

#[test]
fn refuses_bad_words(rt: HostRuntime) {
    for text in BAD {
        let asked = servers_of(&rt, rt.alloc(), text);
        assert!(rt; asked == Err(WordsFault::BadWords), "{text}");
    }
    assert!(rt; settings(rt.alloc(), &[]) == Err(WordsFault::BadWords));
}

// Returns how many servers these words ask for.
fn servers_of(rt: &impl Abort, alloc: Global, text: &'static str) -> Result<u8, WordsFault> {
    let words = words_of(rt, alloc, text);
    let read = settings(alloc, &words);
    drop(words);
    match read {
        Ok(last) => Ok(last.number()),
        Err(fault) => Err(fault),
    }
}

fn words_of(rt: &impl Abort, alloc: Global, text: &'static str) -> Vec<&'static str> {
    let words: Result<Vec<&str>, _> = text.split(' ').collect(alloc);
    words.expect(rt, "there is memory")
}

#[test]
fn reports_its_faults(rt: HostRuntime) {
    for (text, reads, writes, status, line) in TOLD {
        let mut faults = VecSink::new(rt.alloc(), 65536);
        let words = words_of(&rt, rt.alloc(), text);
        let answered = run(rt.alloc(), &words, *reads, *writes, &mut faults);
        let is_reported = faults.bytes() == line.as_bytes();
        drop(words);
        drop(faults);
        assert!(rt; answered == *status && is_reported, "{line}");
    }
}

// Runs the program over memory by these words. One read fails, and one write, each after this many.
fn run(alloc: Global, words: &[&str], reads: u64, writes: u64, faults: &mut VecSink) -> u8 {
    let mut source = SliceSource::new(b"a\nb", 65536).failing_after(reads);
    let mut sink = VecSink::new(alloc, 65536).failing_after(writes);
    let status = command(alloc, words, &mut source, &mut sink, faults);
    drop(sink);
    status
}
