//! A machine, and entries for it.

use crate::values::{create, create_timed, multi};
use std::alloc::Global;
use zalloc::Memory;
use zcalls::{Entry, Reply, Update};
use zops::{MAX_APPLIED, Machine};
use ztesting::{call_number, client};

/// Returns a machine at which client 1's first call made `/a`.
pub(crate) fn machine(alloc: Global) -> Result<Machine, Memory> {
    machine_after(alloc, create(alloc, "/a"))
}

/// Returns a machine at which client 1's first call made `/a`, whose TTL is one tick.
pub(crate) fn timed_machine(alloc: Global) -> Result<Machine, Memory> {
    machine_after(alloc, create_timed(alloc, "/a"))
}

/// Returns a machine at which client 1's first call was a multi that made `/a`.
pub(crate) fn machine_of_multi(alloc: Global) -> Result<Machine, Memory> {
    machine_after(alloc, multi(alloc, "/a"))
}

fn machine_after(alloc: Global, update: Result<Update, Memory>) -> Result<Machine, Memory> {
    let update = update?;
    let entry = first_entry(update);
    let Ok(mut machine) = Machine::new(alloc) else {
        drop(entry);
        return Err(Memory);
    };
    if acts(&mut machine, entry).is_ok() {
        return Ok(machine);
    }
    drop(machine);
    Err(Memory)
}

/// Returns the update as client 1's first call.
pub(crate) fn first_entry(update: Update) -> Entry {
    Entry {
        client: client(1),
        number: call_number(1),
        update,
    }
}

/// Returns the update as client 1's second call.
pub(crate) fn second_entry(update: Update) -> Entry {
    Entry {
        client: client(1),
        number: call_number(2),
        update,
    }
}

/// Applies an entry; returns whether there is a reply, and no refusal.
pub(crate) fn acts(machine: &mut Machine, entry: Entry) -> Result<bool, Memory> {
    if machine.applied() >= MAX_APPLIED {
        drop(entry);
        return Ok(false);
    }
    let reply = machine.apply(&entry);
    drop(entry);
    match reply {
        Ok(reply) => Ok(has_acted(reply)),
        Err(memory) => Err(memory),
    }
}

fn has_acted(reply: Option<Reply>) -> bool {
    let has_acted = !matches!(
        &reply,
        None | Some(Reply::Refused(_)) | Some(Reply::MultiRefused(_, _))
    );
    drop(reply);
    has_acted
}

/// Returns whether the machine can be copied.
pub(crate) fn can_be_copied(machine: &Machine) -> bool {
    match machine.copy() {
        Ok(copy) => {
            drop(copy);
            true
        }
        Err(Memory) => false,
    }
}
