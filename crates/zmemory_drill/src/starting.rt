//! What holds after a refused allocation where a cluster starts, or is joined: no thread but the
//! program's own is left, and another cluster can start.

use std::alloc::Global;
use std::rt::Files;
use std::sync::Wait;
use std::thread::Threads;
use std::{fs, thread};
use zalloc::Memory;
use zrun::{Cluster, StartFault, open_gates};
use ztesting::{Ended, server};

// Why a cluster's threads were not started, or their traces are not there.
#[derive(Clone, Copy)]
enum Fault {
    NoGates,
    Start(StartFault),
    Join,
}

// A chain of two servers, with two clients.
pub(crate) fn cluster_starts<R: Threads + Wait + Files + AllocGlobal + Copy + Send + 'static>(
    rt: R,
    alloc: Global,
) -> Ended {
    match starts(rt, alloc) {
        Ok(()) => Ended::done(is_alone(&rt)),
        Err(Fault::NoGates) => Ended::NotBegun,
        Err(Fault::Start(_)) | Err(Fault::Join) => {
            Ended::refused(is_alone(&rt) && starts(rt, alloc).is_ok() && is_alone(&rt))
        }
    }
}

// It starts, and is joined.
fn starts<R: Threads + Wait + Copy + Send + 'static>(rt: R, alloc: Global) -> Result<(), Fault> {
    let Ok(gates) = open_gates(alloc) else {
        return Err(Fault::NoGates);
    };
    match Cluster::start(rt, alloc, server(2), 2, gates) {
        Ok((cluster, console, clients)) => match cluster.join(&rt, alloc, console, clients) {
            Ok(traces) => {
                drop(traces);
                Ok(())
            }
            Err(Memory) => Err(Fault::Join),
        },
        Err(fault) => Err(Fault::Start(fault)),
    }
}

// Whether the program has one thread. One that was joined may still be on its way out.
fn is_alone<R: Files + AllocGlobal>(rt: &R) -> bool {
    for _ in 0..1000 {
        if has_one_thread(rt) {
            return true;
        }
        thread::yield_now();
    }
    false
}

fn has_one_thread<R: Files + AllocGlobal>(rt: &R) -> bool {
    match fs::read_to_string(rt, "/proc/self/status") {
        Ok(status) => {
            let is_one = status.contains("Threads:\t1\n");
            drop(status);
            is_one
        }
        Err(_) => false,
    }
}
