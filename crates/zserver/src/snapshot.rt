//! The payload of a `Snapshot`.
//!
//! # Why
//!
//! A snapshot that a chain begins with has no cached reply and counts no entry (`IsFresh`). Clients
//! begin anew, and an old reply under number 1 would answer a new call.

ghost use Rattle.std.specs.Prelude.{◌≡◌, false, IfOk};
ghost use Rattle.zserver.specs.support.Replicas.{transfer_of};

use std::alloc::Global;
use std::marker::Model;
use zalloc::Memory;
use zops::Machine;
use zprotocol::LogNumber;

/// The whole state of a server, as it is sent to one that has none. Its machine has never run out
/// of memory. The number of its last entry is the number of entries that the machine applied. The
/// machine is boxed, because every message has room for a snapshot.
#[derive(Drop)]
pub struct Snapshot {
    machine: Box<Machine>,
}

impl Model for Snapshot {
    ghost use Rattle.std.specs.Prelude.{◌≡◌, false};
    ghost use Rattle.ztree.specs.Tree.{Tree};
    ghost use Rattle.zcalls.specs.Cached.{CachedState};
    ghost use Rattle.zprotocol.specs.server.View.{Transfer};
    ghost use Rattle.zserver.specs.support.Codes.{coded_transfer};
    ghost use Rattle.zserver.specs.support.Replicas.{transfer_of};

    ghost Value = { Transfer (CachedState Tree) };

    ghost coded = { coded_transfer };

    ghost view = { λ s. transfer_of s.machine.value };

    ghost invariant = { λ s. s.machine.value.is_broken ≡ false };
}

impl Snapshot {
    ghost use Rattle.ztree.specs.Lawful.{IsLawful};
    ghost use Rattle.zcalls.specs.Bounds.{IsBounded};

    /// Returns a snapshot of this machine's state.
    pub(crate) fn of(alloc: Global, machine: &Machine) -> Result<Snapshot, Memory>
        ensures { IfOk result (λ snapshot. snapshot ≡ transfer_of machine.now) }
    {
        Ok(Snapshot {
            machine: Box::new(alloc, machine.copy()?)?,
        })
    }

    /// Makes a snapshot of a machine, as one restored from rows; or returns `Memory`.
    pub fn restored(alloc: Global, machine: Machine) -> Result<Snapshot, Memory>
        requires whole { machine.is_broken ≡ false }
        ensures { IfOk result (λ snapshot. snapshot ≡ transfer_of machine) }
    {
        Ok(Snapshot {
            machine: Box::new(alloc, machine)?,
        })
    }

    /// Returns its machine, to be read row by row.
    pub fn machine(&self) -> &Machine
        ensures last { result.now.state.applied ≡ self.now.last }
        ensures machine { result.now.state.service ≡ self.now.machine }
        ensures whole { result.now.is_broken ≡ false }
    {
        self.machine.as_ref()
    }

    /// The tree of every snapshot is lawful, and its numbers are bounded. The function does
    /// nothing.
    pub fn keeps_lawful(&self)
        ensures lawful { IsLawful self.now.machine.plain }
        ensures bounded { IsBounded self.now.machine.plain }
    {
        self.machine.as_ref().keeps_lawful();
    }

    /// Returns the number of its last entry.
    pub(crate) fn last(&self) -> LogNumber
        ensures { result ≡ self.now.last }
    {
        log_number(self.machine.as_ref())
    }

    /// Returns its machine.
    pub(crate) fn into_machine(self) -> Machine
        ensures last { result.state.applied ≡ self.last }
        ensures machine { result.state.service ≡ self.machine }
        ensures whole { result.is_broken ≡ false }
    {
        Box::into_inner(self.machine)
    }
}

/// Returns how many entries the machine applied, as the number of the last one.
pub(crate) fn log_number(machine: &Machine) -> LogNumber
    ensures { result ≡ machine.now.state.applied }
{
    match LogNumber::new(machine.applied()) {
        Some(number) => number,
        None => unreachable!(),
    }
}
