//! What holds after a refused allocation: in the parts of a server and of a client, in a world, in
//! a script, and where a cluster starts and is joined.
//!
//! Each story is one call. If one of its allocations is refused, the answer is the refusal that is
//! named for it, or a server stops, and what holds then is what its clauses say. If none is
//! refused, all are done: the calls succeed when there is memory. `./test memory` refuses each
//! allocation in turn, one a run.
#![tactic(auto)]

mod applying;
mod asking;
mod beginning;
mod calling;
mod joining;
mod machines;
mod marking;
mod ordering;
mod parsing;
mod playing;
mod restoring;
mod running;
mod serving;
mod sharing;
mod starting;
mod stories;
mod story;
mod taking;
mod values;
mod worlds;

use starting::cluster_starts;
use std::io;
use stories::report_parts;
use worlds::report_worlds;
use ztesting::{report_end, tell};

fn main(rt: HostRuntime) -> io::Result<()> {
    report_parts(&rt, rt.alloc())?;
    report_worlds(&rt, rt.alloc())?;
    let started = cluster_starts(rt, rt.alloc());
    tell(&rt, "a cluster starts and is joined", started)?;
    report_end(&rt, rt.alloc())
}
