//! A machine that runs out of memory in `ask` or `copy` is unchanged.

use crate::machines::{can_be_copied, machine};
use std::alloc::Global;
use zalloc::Memory;
use zcalls::{Query, Reply};
use zops::Machine;
use zpath::Path;
use ztesting::Ended;

/// Asks it for the names beneath the root.
pub(crate) fn children_are_reported(alloc: Global) -> Ended {
    match machine(alloc) {
        Ok(machine) => {
            let query = Query::GetChildren(Path::root());
            let ended = reports(&machine, &query);
            drop(machine);
            drop(query);
            ended
        }
        Err(Memory) => Ended::NotBegun,
    }
}

fn reports(machine: &Machine, query: &Query) -> Ended {
    match reports_of_a(machine, query) {
        Ok(is_so) => Ended::done(is_so),
        Err(Memory) => Ended::refused(reports_of_a(machine, query) == Ok(true)),
    }
}

// Returns whether the reply has the name of `/a` alone.
fn reports_of_a(machine: &Machine, query: &Query) -> Result<bool, Memory> {
    match machine.ask(query) {
        Ok(reply) => Ok(is_of_a(reply)),
        Err(memory) => Err(memory),
    }
}

fn is_of_a(reply: Reply) -> bool {
    let is_so = match &reply {
        Reply::Children(names) => names.as_slice().len() == 1,
        _ => false,
    };
    drop(reply);
    is_so
}

/// Copies it.
pub(crate) fn machine_is_copied(alloc: Global) -> Ended {
    match machine(alloc) {
        Ok(machine) => {
            let ended = is_copied(&machine);
            drop(machine);
            ended
        }
        Err(Memory) => Ended::NotBegun,
    }
}

fn is_copied(machine: &Machine) -> Ended {
    match machine.copy() {
        Ok(copy) => {
            let has_one = copy.applied() == 1;
            drop(copy);
            Ended::done(has_one)
        }
        Err(Memory) => Ended::refused(can_be_copied(machine)),
    }
}
