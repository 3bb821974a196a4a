//! `zk race` runs the service in threads, with clients that race for nodes, and audits the run.
//!
//! # Why
//!
//! It is a program of its own, so that `zk script` doesn't wait for the proof of the threads.
//! `./zk` runs the program that the words ask for.
#![tactic(auto)]

use std::env;
use std::process::ExitCode;
use std::sync::Wait;
use std::thread::Threads;
use zarguments::{WordsFault, refuse};
use zdevices::{Sink, WriterSink};
use zrace::race_command;

fn main(rt: HostRuntime) -> ExitCode {
    let mut sink = WriterSink::new(rt.stdout());
    let mut faults = WriterSink::new(rt.stderr());
    let status = match run(&rt, rt, &mut sink, &mut faults) {
        Ok(status) => status,
        Err(fault) => refuse(fault, &mut faults),
    };
    ExitCode::from(status)
}

// Runs the race that the program's arguments ask for, and returns the exit status.
fn run<R: Threads + Wait + Copy + Send + 'static, K: Sink, F: Sink>(
    rt: &HostRuntime,
    threads: R,
    sink: &mut K,
    faults: &mut F,
) -> Result<u8, WordsFault> {
    let given: Vec<String> = env::args(rt)?.collect(rt.alloc())?;
    let words: Vec<&str> = given.iter().map(|word| word.as_str()).collect(rt.alloc())?;
    Ok(race_command(threads, rt.alloc(), &words, sink, faults))
}
