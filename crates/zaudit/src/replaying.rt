//! Traces replayed on a world.

ghost use Rattle.std.specs.Prelude.{◌≡◌, ◌⊎◌, ◌≤◌, true, false, length, replicate, IfOk, IfErr, OnOk};
ghost use Rattle.std.specs.BinaryHeap.{heap_items, IsHeap};
ghost use Rattle.zprotocol.specs.declared.limits.TheConstants.{PROCESSES};
ghost use Rattle.zworld.specs.Steps.{world_in};
ghost use Rattle.zprotocol.specs.traces.Audit.{opening_of};
ghost use Rattle.zprotocol.specs.traces.support.Places.{place_count, HasReplayed, IsAllRead, IsReplayFault};
ghost use Rattle.zaudit.specs.support.Heads.{head_cmp, HoldsAll};
ghost use Rattle.zaudit.specs.support.Replays.{LeavesFewer, HasReplayedAll};
ghost use Rattle.zaudit.specs.declared.faults.AuditFault.TheVariants.{Disorder, Memory};

use crate::deeds::replay_act;
use crate::faults::AuditFault;
use crate::heads::{Head, heads_of, next_event, put_head};
use crate::places::{count_of, process_in};
use std::alloc::Global;
use std::collections::BinaryHeap;
use zprotocol::traces::Traces;
use zworld::World;

// Replays the next event; returns false where none is left.
fn replay_next(
    alloc: Global,
    traces: &Traces,
    heads: &mut BinaryHeap<Head>,
    read: &mut [usize],
    world: &mut World,
) -> Result<bool, AuditFault>
    requires read { length read.old ≡ place_count traces.now }
    requires heap { IsHeap head_cmp (heap_items heads.old) }
    requires heads { HoldsAll traces.now read.old heads.old }
    requires replayed { HasReplayed traces.now read.old (world_in world.old) }
    ensures same { length read.new ≡ length read.old }
    ensures heap { OnOk result (IsHeap head_cmp (heap_items heads.new)) }
    ensures heads { IfOk result (λ more. more ≡ true → HoldsAll traces.now read.new heads.new) }
    ensures replayed { OnOk result (HasReplayed traces.now read.new (world_in world.new)) }
    ensures fewer { IfOk result (λ more. more ≡ true → LeavesFewer traces.now read.old read.new) }
    ensures all { IfOk result (λ more. more ≡ false → IsAllRead traces.now read.new) }
    ensures past { world.new.has_forgotten ≡ world.old.has_forgotten }
    ensures disorder { IfErr result (λ fault. fault ≡ Disorder → IsReplayFault traces.now) }
    ensures only { IfErr result (λ fault. (fault ≡ Disorder) ⊎ (fault ≡ Memory)) }
{
    let Some((place, event)) = next_event(heads, traces, read) else {
        return Ok(false);
    };
    replay_act(alloc, world, process_in(traces, place), &event.act)?;
    read[place] += 1;
    put_head(heads, traces, read, place)?;
    Ok(true)
}

// Replays all events that are left.
fn replay_rest(
    alloc: Global,
    traces: &Traces,
    heads: &mut BinaryHeap<Head>,
    read: &mut [usize],
    world: &mut World,
) -> Result<(), AuditFault>
    requires read { length read.old ≡ place_count traces.now }
    requires heap { IsHeap head_cmp (heap_items heads.old) }
    requires heads { HoldsAll traces.now read.old heads.old }
    requires replayed { HasReplayed traces.now read.old (world_in world.old) }
    ensures replayed { OnOk result (HasReplayedAll traces.now world.new) }
    ensures past { world.new.has_forgotten ≡ world.old.has_forgotten }
    ensures disorder { IfErr result (λ fault. fault ≡ Disorder → IsReplayFault traces.now) }
    ensures only { IfErr result (λ fault. (fault ≡ Disorder) ⊎ (fault ≡ Memory)) }
{
    while replay_next(alloc, traces, heads, read, world)? {}
    Ok(())
}

/// Replays all events, by their timestamps.
pub(crate) fn replay(alloc: Global, traces: &Traces, world: &mut World) -> Result<(), AuditFault>
    requires opening { opening_of traces.now ≡ world_in world.old }
    ensures replayed { OnOk result (HasReplayedAll traces.now world.new) }
    ensures past { world.new.has_forgotten ≡ world.old.has_forgotten }
    ensures disorder { IfErr result (λ fault. fault ≡ Disorder → IsReplayFault traces.now) }
    ensures only { IfErr result (λ fault. (fault ≡ Disorder) ⊎ (fault ≡ Memory)) }
{
    let mut read = zeros(alloc, count_of(traces))?;
    let mut heads = heads_of(alloc, traces, &read)?;
    replay_rest(alloc, traces, &mut heads, &mut read, world)
}

// Returns a vector of n zeros.
fn zeros(alloc: Global, n: usize) -> Result<Vec<usize>, zalloc::Memory>
    requires { n ≤ PROCESSES }
    ensures { IfOk result (λ read. read.items ≡ replicate n 0) }
{
    Ok(vec![in alloc; 0; n]?)
}
