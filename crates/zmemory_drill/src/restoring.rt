//! A machine's state is sent as rows: when memory runs out, nothing is lost, and a row comes again.

ghost use Rattle.std.specs.Prelude.{◌≡◌, false, IfOk};

use crate::machines::first_entry;
use crate::values::create;
use std::alloc::Global;
use zalloc::Memory;
use zops::Machine;
use zsnapshots::{Loading, RowFault, Writing};
use ztesting::Ended;

// A header, the root, `/a`, and the reply to its create.
const ROWS: usize = 4;

/// Writes the rows of a machine.
pub(crate) fn rows_are_written(alloc: Global) -> Ended {
    let Ok(machine) = machine(alloc) else {
        return Ended::NotBegun;
    };
    let ended = match rows(alloc, &machine) {
        Ok(rows) => Ended::done(rows.len() == ROWS),
        Err(Memory) => Ended::refused(has_its_rows(alloc, &machine)),
    };
    drop(machine);
    ended
}

// Returns whether the machine has its rows still.
fn has_its_rows(alloc: Global, machine: &Machine) -> bool
    requires { machine.now.is_broken ≡ false }
{
    match rows(alloc, machine) {
        Ok(rows) => rows.len() == ROWS,
        Err(Memory) => false,
    }
}

/// Loads a machine from rows, and each that is refused for memory again.
pub(crate) fn rows_are_loaded(alloc: Global) -> Ended {
    let Ok(machine) = machine(alloc) else {
        return Ended::NotBegun;
    };
    let rows = rows(alloc, &machine);
    drop(machine);
    match rows {
        Ok(rows) => loads(alloc, &rows),
        Err(Memory) => Ended::NotBegun,
    }
}

fn loads(alloc: Global, rows: &[Vec<u8>]) -> Ended {
    let mut loading = Loading::new(alloc);
    let mut is_refused = false;
    for row in rows {
        match loading.take(row) {
            Ok(()) => {}
            Err(RowFault::Memory) => {
                is_refused = true;
                if loading.take(row).is_err() {
                    return Ended::Wrong;
                }
            }
            Err(_) => return Ended::Wrong,
        }
    }
    let is_whole = is_whole(loading);
    if is_refused {
        Ended::refused(is_whole)
    } else {
        Ended::done(is_whole)
    }
}

// Returns whether the machine of these rows applied one entry.
fn is_whole(loading: Loading) -> bool {
    match loading.finish() {
        Some(machine) => {
            let is_whole = machine.applied() == 1;
            drop(machine);
            is_whole
        }
        None => false,
    }
}

// Returns a machine at which client 1's first call made `/a`.
fn machine(alloc: Global) -> Result<Machine, Memory>
    ensures { IfOk result (λ m. m.is_broken ≡ false) }
{
    let entry = first_entry(create(alloc, "/a")?);
    let Ok(mut machine) = Machine::new(alloc) else {
        drop(entry);
        return Err(Memory);
    };
    let reply = machine.apply(&entry);
    drop(entry);
    match reply {
        Ok(reply) => {
            drop(reply);
            Ok(machine)
        }
        Err(memory) => {
            drop(machine);
            Err(memory)
        }
    }
}

// Returns the rows of a machine.
fn rows(alloc: Global, machine: &Machine) -> Result<Vec<Vec<u8>>, Memory>
    requires { machine.now.is_broken ≡ false }
{
    let mut writing = Writing::new(alloc, machine)?;
    let mut rows = Vec::new(alloc);
    for _ in 0..ROWS {
        let mut row = Vec::new(alloc);
        if writing.write_next(&mut row).is_err() {
            return Err(Memory);
        }
        if rows.push(row).is_err() {
            return Err(Memory);
        }
    }
    Ok(rows)
}
