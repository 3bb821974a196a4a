//! The program of one node of a cluster. Its host has the sockets and the log.
//!
//! It takes inputs from its standard input, and writes answers to its standard output, as the crate
//! `znode::pipe` defines them. The host starts it, with the words that `node_settings` reads.
#![tactic(auto)]

use std::env;
use std::process::ExitCode;
use zarguments::{WordsFault, refuse};
use zdevices::{ReaderSource, Sink, Source, WriterSink};
use znode::node_command;

fn main(rt: HostRuntime) -> ExitCode {
    let mut source = ReaderSource::new(rt.reader());
    let mut sink = WriterSink::new(rt.stdout());
    let mut faults = WriterSink::new(rt.stderr());
    let status = match run(&rt, &mut source, &mut sink, &mut faults) {
        Ok(status) => status,
        Err(fault) => refuse(fault, &mut faults),
    };
    ExitCode::from(status)
}

// Does what the words that the program was started with ask for.
fn run<S: Source, K: Sink, F: Sink>(
    rt: &HostRuntime,
    source: &mut S,
    sink: &mut K,
    faults: &mut F,
) -> Result<u8, WordsFault> {
    let given: Vec<String> = env::args(rt)?.collect(rt.alloc())?;
    let words: Vec<&str> = given.iter().map(|word| word.as_str()).collect(rt.alloc())?;
    Ok(node_command(rt.alloc(), &words, source, sink, faults))
}
