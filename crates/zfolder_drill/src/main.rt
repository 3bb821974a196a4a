//! A round trip of states: each is written as a snapshot, read back and compared, and written again
//! to the same bytes.
//!
//! Each line of the input is a line of a script. The updates that it calls or begins are given to
//! two machines and to a folder's tree; a `retry` gives the client's last number again. What else
//! it asks does nothing here. After a change the first machine is written as rows, and the second
//! one becomes the machine that is read from them. So a machine that was read answers beside one
//! that never was, and their answers are compared. The folder's tree is read from a snapshot and
//! the entries after it, and then from a snapshot alone.
//!
//! A state of more than 16 rows isn't compared at each change, but as soon as there were a
//! sixteenth as many changes as rows. The line `drill SEED` makes 12,000 calls, drawn by that
//! number. `./test states` gives it the scripts of `rows/`.
#![tactic(auto)]

ghost use Rattle.std.specs.Prelude.{OnOk};
ghost use Rattle.zfolder_drill.specs.Pair.{IsWhole};

mod chance;
mod drill;
mod folder;
mod pair;
mod rounds;
mod trouble;

use chance::{CALLS, Chance, draw_line};
use drill::{Drill, Tally};
use std::alloc::Global;
use std::io;
use std::io::Print;
use trouble::Trouble;

fn main(rt: HostRuntime) -> io::Result<()> {
    let ended = drilled(&rt, rt.alloc());
    match ended {
        Ok(tally) => tell(&rt, tally),
        Err(trouble) => println!(rt; "WRONG: {trouble}"),
    }
}

fn tell(rt: &impl Print, tally: Tally) -> io::Result<()> {
    let Tally {
        changes,
        states,
        most,
    } = tally;
    println!(rt; "{changes} changes, {states} states of at most {most} rows: all are read again")
}

// Takes all lines of the input, and compares the last state.
fn drilled(rt: &HostRuntime, alloc: Global) -> Result<Tally, Trouble> {
    let mut drill = Drill::new(alloc)?;
    for line in rt.lines(alloc) {
        let line = line?;
        takes(alloc, &mut drill, &line)?;
        drop(line);
    }
    drill.compare()?;
    Ok(drill.tally())
}

// Takes a line: one of a script, or the seed of many.
fn takes(alloc: Global, drill: &mut Drill, line: &str) -> Result<(), Trouble>
    requires { IsWhole drill.old.pair }
    ensures { OnOk result (IsWhole drill.new.pair) }
{
    match line.strip_prefix("drill ") {
        Some(seed) => draws(alloc, drill, seed),
        None => drill.take(line.as_bytes()),
    }
}

// Takes the calls that a seed draws.
fn draws(alloc: Global, drill: &mut Drill, seed: &str) -> Result<(), Trouble>
    requires { IsWhole drill.old.pair }
    ensures { OnOk result (IsWhole drill.new.pair) }
{
    let Ok(seed) = seed.parse::<u64>() else {
        return Err(Trouble::Input);
    };
    let mut chance = Chance::new(seed);
    for _ in 0..CALLS {
        let line = draw_line(alloc, &mut chance)?;
        drill.take(line.as_bytes())?;
    }
    Ok(())
}
