//! The program of `zk serve`: it holds the tree, and makes it durable in a folder if one is named.
//! Its host has the sockets.
//!
//! It takes a secret, logins and messages from its standard input, and writes answers to its
//! standard output, as the crate `zdaemon::pipe` defines them. The host starts it, with the words
//! that `hosted_settings` reads.
//!
//! # Why
//! `std::fs` needs the runtime that a program's `main` gets, and a static library has none. So the
//! front end runs in a child of the C host, and no C is between an acknowledged change and the
//! disk. It does so without a folder too: there is one host, and its bugs can't reach the front's
//! memory.
#![tactic(auto)]

use std::env;
use std::process::ExitCode;
use zarguments::{WordsFault, refuse};
use zdaemon::hosted_command;
use zdevices::{ReaderSource, Sink, Source, WriterSink};

fn main(rt: HostRuntime) -> ExitCode {
    let mut source = ReaderSource::new(rt.reader());
    let mut sink = WriterSink::new(rt.stdout());
    let mut faults = WriterSink::new(rt.stderr());
    let status = match run(&rt, &mut source, &mut sink, &mut faults) {
        Ok(status) => status,
        Err(fault) => refuse(fault, &mut faults),
    };
    ExitCode::from(status)
}

// Does what the words that the program was started with ask for.
fn run<S: Source, K: Sink, F: Sink>(
    rt: &HostRuntime,
    source: &mut S,
    sink: &mut K,
    faults: &mut F,
) -> Result<u8, WordsFault> {
    let given: Vec<String> = env::args(rt)?.collect(rt.alloc())?;
    let words: Vec<&str> = given.iter().map(|word| word.as_str()).collect(rt.alloc())?;
    Ok(hosted_command(rt.alloc(), rt, &words, source, sink, faults))
}
