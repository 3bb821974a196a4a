//! A service with durable changes that runs out of memory: it has ended, and its file loses
//! nothing.

ghost use Rattle.std.specs.Prelude.{IfOk};
ghost use Rattle.zjournal.specs.Device.{Only};
ghost use Rattle.zjournal.specs.Memory.{current_of};
ghost use Rattle.zjournal.specs.Past.{CanBe};
ghost use Rattle.zdurable.specs.DurableFront.{IsSound};

use crate::files::{stage_in, worked_file};
use crate::trees::Stage;
use std::alloc::Global;
use zdurable::{
    DurableFault, DurableFront, Input, OpenFault, Opened, Secret, ServerId, Terms, TickLength,
    TreeLimits, WatchLimits,
};
use zjournal::{Device, MemoryFile, OpenError};
use ztesting::Ended;

// The milliseconds of a tick.
const TICK: u32 = 1000;

/// Opens a service. When out of memory, its file is returned as it was.
pub(crate) fn service_is_opened(alloc: Global) -> Ended {
    is_opened_within(alloc, TreeLimits::profile(), Stage::Worked)
}

/// Opens a service with other limits: its file is compacted. When out of memory, it is as it was, or
/// compacted.
pub(crate) fn service_is_limited(alloc: Global) -> Ended {
    let mut limits = TreeLimits::profile();
    limits.nodes = 2;
    is_opened_within(alloc, limits, Stage::Short)
}

fn is_opened_within(alloc: Global, limits: TreeLimits, wanted: Stage) -> Ended {
    let Some(terms) = terms() else {
        return Ended::Wrong;
    };
    let Some(file) = worked_file(alloc) else {
        return Ended::NotBegun;
    };
    match open(alloc, file, terms, limits) {
        Ok(Opened { kept, .. }) => {
            let found = stage_in(alloc, &kept.device().current().disk);
            drop(kept);
            Ended::done(found == wanted)
        }
        Err((fault, file)) => {
            let found = stage_in(alloc, &file.current().disk);
            drop(file);
            Ended::refused(is_memory(fault) && (found == Stage::Worked || found == wanted))
        }
    }
}

// Opens the service of a file.
fn open(
    alloc: Global,
    file: MemoryFile,
    terms: Terms,
    limits: TreeLimits,
) -> Result<Opened<MemoryFile>, (OpenFault, MemoryFile)>
    requires { Only (current_of file).seen.items (CanBe (current_of file)) }
    ensures { IfOk result (λ opened.
        IsSound (λ m. (current_of m).seen.items) (λ m. CanBe (current_of m)) opened.kept) }
{
    let (first, watches) = (ServerId::first(), watches());
    DurableFront::open(alloc, file, first, secret(), terms, 0, watches, limits)
}

// The terms of the profile.
fn terms() -> Option<Terms> {
    match TickLength::new(TICK) {
        Some(tick) => Some(Terms::profile(tick)),
        None => None,
    }
}

// Passwords are derived from this.
fn secret() -> Secret {
    Secret::new([7; 32])
}

// No watch is set.
fn watches() -> WatchLimits {
    WatchLimits { most: 1, each: 1 }
}

// Returns whether memory ran out.
fn is_memory(fault: OpenFault) -> bool {
    matches!(
        fault,
        OpenFault::Memory
            | OpenFault::Journal(OpenError::Memory)
            | OpenFault::Renewal(DurableFault::Memory)
    )
}

// What a service does.
#[derive(Clone, Copy)]
enum Act {
    Ticks,
    Compacts,
    // A tick that isn't committed yet becomes durable with the compaction.
    CompactsATick,
}

/// Commits a tick.
pub(crate) fn change_is_kept(alloc: Global) -> Ended {
    is_done(alloc, Act::Ticks)
}

/// Compacts the file.
pub(crate) fn service_is_compacted(alloc: Global) -> Ended {
    is_done(alloc, Act::Compacts)
}

/// Compacts the file after a tick.
pub(crate) fn change_is_compacted(alloc: Global) -> Ended {
    is_done(alloc, Act::CompactsATick)
}

fn is_done(alloc: Global, act: Act) -> Ended {
    let Some(terms) = terms() else {
        return Ended::Wrong;
    };
    let Some(file) = worked_file(alloc) else {
        return Ended::NotBegun;
    };
    let opened = open(alloc, file, terms, TreeLimits::profile());
    let Ok(Opened { mut kept, .. }) = opened else {
        return Ended::NotBegun;
    };
    let ended = does(&mut kept, act);
    let found = stage_in(alloc, &kept.device().current().disk);
    drop(kept);
    if is_left(found, act, ended) {
        ended
    } else {
        Ended::Wrong
    }
}

// Returns whether a file may hold this, after an act that ended so.
fn is_left(found: Stage, act: Act, ended: Ended) -> bool {
    let last = match act {
        Act::Ticks => Stage::Ticked,
        Act::Compacts => Stage::Short,
        Act::CompactsATick => Stage::ShortTicked,
    };
    found == last || (found == Stage::Worked && !matches!(ended, Ended::Done))
}

// When out of memory, the service has ended.
fn does<D: Device>(kept: &mut DurableFront<D>, act: Act) -> Ended
    requires { IsSound D.seen D.may_leave kept.old }
{
    match did(kept, act) {
        Ok(()) => Ended::Done,
        Err(DurableFault::Memory) => Ended::refused(did(kept, act) == Err(DurableFault::Ended)),
        Err(_) => Ended::Wrong,
    }
}

fn did<D: Device>(kept: &mut DurableFront<D>, act: Act) -> Result<(), DurableFault>
    requires { IsSound D.seen D.may_leave kept.old }
    ensures { IsSound D.seen D.may_leave kept.new }
{
    match act {
        Act::Ticks => {
            kept.take(Input::Tick)?;
            kept.commit()
        }
        Act::Compacts => compacts(kept),
        Act::CompactsATick => {
            kept.take(Input::Tick)?;
            compacts(kept)
        }
    }
}

// A compaction.
fn compacts<D: Device>(kept: &mut DurableFront<D>) -> Result<(), DurableFault>
    requires { IsSound D.seen D.may_leave kept.old }
    ensures { IsSound D.seen D.may_leave kept.new }
{
    kept.compact()?;
    Ok(())
}
