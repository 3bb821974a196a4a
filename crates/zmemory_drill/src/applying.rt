//! A machine that runs out of memory in `apply` returns `Memory` for good.

use crate::machines::{
    acts, can_be_copied, first_entry, machine, machine_of_multi, second_entry, timed_machine,
};
use crate::values::{create_sequential, multi};
use std::alloc::Global;
use zalloc::Memory;
use zcalls::{Entry, Query, Update};
use zops::Machine;
use zpath::Path;
use ztesting::Ended;

/// Applies a create, whose path is made where it is applied.
pub(crate) fn create_is_applied(alloc: Global) -> Ended {
    is_second(alloc, create_sequential(alloc, "/a/b"))
}

/// Applies a multi.
pub(crate) fn multi_is_applied(alloc: Global) -> Ended {
    is_second(alloc, multi(alloc, "/b"))
}

/// Applies an open.
pub(crate) fn open_is_applied(alloc: Global) -> Ended {
    is_second(alloc, Ok(Update::Open(5)))
}

/// Sends client 1's cached reply again, which makes a copy of its list.
pub(crate) fn retry_is_applied(alloc: Global) -> Ended {
    is_applied_at(machine_of_multi(alloc), first_entry(Update::Tick))
}

/// Applies a tick that removes a node whose time to live is over.
pub(crate) fn removal_is_applied(alloc: Global) -> Ended {
    is_applied_at(timed_machine(alloc), second_entry(Update::Tick))
}

fn is_second(alloc: Global, update: Result<Update, Memory>) -> Ended {
    match update {
        Ok(update) => is_applied(alloc, second_entry(update)),
        Err(Memory) => Ended::NotBegun,
    }
}

fn is_applied(alloc: Global, entry: Entry) -> Ended {
    is_applied_at(machine(alloc), entry)
}

fn is_applied_at(machine: Result<Machine, Memory>, entry: Entry) -> Ended {
    match machine {
        Ok(mut machine) => {
            let ended = applies(&mut machine, entry);
            drop(machine);
            ended
        }
        Err(Memory) => {
            drop(entry);
            Ended::NotBegun
        }
    }
}

fn applies(machine: &mut Machine, entry: Entry) -> Ended {
    match acts(machine, entry) {
        Ok(has_acted) => Ended::done(has_acted),
        Err(Memory) => Ended::refused(is_broken(machine)),
    }
}

// Returns whether the machine returns `Memory` for everything, now that there is memory again.
fn is_broken(machine: &mut Machine) -> bool {
    !answers(machine) && !can_be_copied(machine) && !applies_a_tick(machine)
}

fn answers(machine: &Machine) -> bool {
    let root = Query::Exists(Path::root());
    let answer = machine.ask(&root);
    drop(root);
    match answer {
        Ok(reply) => {
            drop(reply);
            true
        }
        Err(Memory) => false,
    }
}

fn applies_a_tick(machine: &mut Machine) -> bool {
    acts(machine, second_entry(Update::Tick)).is_ok()
}
