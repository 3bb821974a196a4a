//! The smallest program that plays a script: from memory to standard output.
#![tactic(auto)]

use std::process::ExitCode;
use zscript::{ServerId, SliceSource, WriterSink, play};

const SCRIPT: &str =
    "1 create /a p aGk=\n1 multi set /a 0 eW8= ; create /a/b p -\n1 get /a\n1 ls /a\n";

fn main(rt: HostRuntime) -> ExitCode {
    let mut source = SliceSource::new(SCRIPT.as_bytes(), 4096);
    let mut sink = WriterSink::new(rt.stdout());
    match play(rt.alloc(), &mut source, &mut sink, ServerId::first()) {
        Ok(()) => ExitCode::SUCCESS,
        Err(_) => ExitCode::FAILURE,
    }
}
