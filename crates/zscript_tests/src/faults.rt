//! Devices that fail.

use std::alloc::Global;
use std::process::Abort;
use zscript::{
    PlayFault, ReaderSource, ServerId, Sink, SliceSource, Source, VecSink, WriterSink, play,
    write_all,
};

const SCRIPT: &str = "1 create /a p -\n1 get /a\n1 get /";

// A session ends at its deadline, and takes its node with it.
const SESSION: &str =
    "1 open 1\n1 create /e e:1 -\n0 tick\n0 tick\n1 exists /e\n1 exists /\n1 ping 1\n";

const ITS_ANSWERS: &str =
    "ok session 1 timeout 2\nok /e\nok tick 1 ended 0\nok tick 2 ended 1\nno NoNode\nok stat 0 0 3 0 0 0 2 0 0 0\nno SessionGone\n";

// The bytes are read one by one, and a read fails after each of them, and at the end.
#[test]
fn each_read_fails_in_turn(rt: HostRuntime) {
    for reads in 0..=SESSION.len() {
        let mut source = SliceSource::new(SESSION.as_bytes(), 1).failing_after(reads as u64);
        let mut sink = VecSink::new(rt.alloc(), 65536);
        let result = play(rt.alloc(), &mut source, &mut sink, ServerId::first());
        let is_beginning = ITS_ANSWERS.as_bytes().starts_with(sink.bytes());
        drop(sink);
        assert!(rt; result == Err(PlayFault::Read) && is_beginning, "{reads}");
    }
}

// The bytes are written one by one, and a write fails after each of them except the last.
#[test]
fn each_write_fails_in_turn(rt: HostRuntime) {
    for writes in 0..ITS_ANSWERS.len() {
        let mut source = SliceSource::new(SESSION.as_bytes(), 65536);
        let mut sink = VecSink::new(rt.alloc(), 1).failing_after(writes as u64);
        let result = play(rt.alloc(), &mut source, &mut sink, ServerId::first());
        let is_beginning = sink.bytes() == &ITS_ANSWERS.as_bytes()[..writes];
        drop(sink);
        assert!(rt; result == Err(PlayFault::Write) && is_beginning, "{writes}");
    }
}

// A write that takes no byte is a failure.
#[test]
fn a_writer_takes_none(rt: HostRuntime) {
    let mut room: [u8; 0] = [];
    let mut source = SliceSource::new(SESSION.as_bytes(), 65536);
    let mut sink = WriterSink::new(room.as_mut_slice());
    let result = play(rt.alloc(), &mut source, &mut sink, ServerId::first());
    assert!(rt; result == Err(PlayFault::Write));
}

#[test]
fn a_failed_read_cuts_the_last_line(rt: HostRuntime) {
    let source = SliceSource::new(SCRIPT.as_bytes(), 24).failing_after(1);
    let sink = VecSink::new(rt.alloc(), 65536);
    ends_by(&rt, rt.alloc(), source, sink, PlayFault::Read, "ok /a\n");
}

#[test]
fn a_failed_write_leaves_a_beginning(rt: HostRuntime) {
    let source = SliceSource::new(SCRIPT.as_bytes(), 65536);
    let sink = VecSink::new(rt.alloc(), 4).failing_after(2);
    ends_by(&rt, rt.alloc(), source, sink, PlayFault::Write, "ok /a\nok");
}

// Plays what the source has: it ends by this fault, and this is written.
fn ends_by(
    rt: &impl Abort,
    alloc: Global,
    mut source: SliceSource,
    mut sink: VecSink,
    fault: PlayFault,
    text: &str,
) {
    let result = play(alloc, &mut source, &mut sink, ServerId::first());
    let is_answer = sink.bytes() == text.as_bytes();
    drop(sink);
    assert!(rt; result == Err(fault) && is_answer);
}

#[test]
fn a_writer_takes_what_it_is_given(rt: HostRuntime) {
    let mut sink = WriterSink::new(Vec::new(rt.alloc()));
    let written = write_all(&mut sink, b"ok /a\n");
    drop(sink);
    assert!(rt; written.is_ok());
}

#[test]
fn a_reader_gives_two_thousand_bytes(rt: HostRuntime) {
    let bytes = [b'a'; 2000];
    let mut source = ReaderSource::new(bytes.as_slice());
    let mut room = [0];
    for _ in 0..2000 {
        assert!(rt; source.read(&mut room) == Ok(1));
    }
    assert!(rt; source.read(&mut room) == Ok(0));
}

#[test]
fn a_writer_takes_a_megabyte(rt: HostRuntime) {
    let bytes = vec![in rt.alloc(); b'a'; 1_000_000].expect(&rt, "there is memory");
    let mut sink = WriterSink::new(Vec::new(rt.alloc()));
    let written = sink.write(&bytes);
    drop(sink);
    drop(bytes);
    assert!(rt; written == Ok(1_000_000));
}
