//! `zk script` plays a script from its input, and writes the answers to its output.
#![tactic(auto)]

use std::env;
use std::process::ExitCode;
use zarguments::{WordsFault, refuse};
use zcommand::command;
use zscript::{ReaderSource, Sink, Source, WriterSink};

fn main(rt: HostRuntime) -> ExitCode {
    let mut source = ReaderSource::new(rt.reader());
    let mut sink = WriterSink::new(rt.stdout());
    let mut faults = WriterSink::new(rt.stderr());
    let status = match run(&rt, &mut source, &mut sink, &mut faults) {
        Ok(status) => status,
        Err(fault) => refuse(fault, &mut faults),
    };
    ExitCode::from(status)
}

// Plays the script that the program's arguments ask for, and returns the exit status.
fn run<S: Source, K: Sink, F: Sink>(
    rt: &HostRuntime,
    source: &mut S,
    sink: &mut K,
    faults: &mut F,
) -> Result<u8, WordsFault> {
    let given: Vec<String> = env::args(rt)?.collect(rt.alloc())?;
    let words: Vec<&str> = given.iter().map(|word| word.as_str()).collect(rt.alloc())?;
    Ok(command(rt.alloc(), &words, source, sink, faults))
}
