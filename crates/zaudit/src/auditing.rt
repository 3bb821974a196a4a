//! The audit of a run.

ghost use Rattle.std.specs.Prelude.{◌≡◌, true, false, Err, IfOk, IfErr, IsOkUnless};
ghost use Rattle.zprotocol.specs.world.PlainTree.{IsExplained};
ghost use Rattle.zworld.specs.Steps.{world_in};
ghost use Rattle.zprotocol.specs.traces.Lawful.{AreLawful};
ghost use Rattle.zprotocol.specs.traces.Audit.{opening_of, is_any_cut, IsFound, IsDisordered, IsMismatched};
ghost use Rattle.zprotocol.specs.traces.Audit.{HasFallingStamp};
ghost use Rattle.zaudit.specs.Audit.{AreUncut};
ghost use Rattle.zaudit.specs.declared.faults.AuditFault.TheVariants.{Cut, Disorder, Mismatch, Memory};

use crate::faults::AuditFault;
use crate::records::agree;
use crate::replaying::replay;
use crate::stamps::{all_rise, has_cut};
use std::alloc::Global;
use zprotocol::traces::Traces;
use zprotocol::world::CallEvent;
use zworld::World;

// Returns the initial world of the run.
fn opened(alloc: Global, traces: &Traces) -> Result<World, zalloc::Memory>
    ensures opening { IfOk result (λ world. opening_of traces.now ≡ world_in world) }
    ensures whole { IfOk result (λ world. world.has_forgotten ≡ false) }
{
    World::new(alloc, traces.last, traces.clients.len() as u8)
}

// Makes the audit, except what lawful traces guarantee. Returns the world at the end of the run.
fn examined(alloc: Global, traces: &Traces) -> Result<World, AuditFault>
    ensures found { IfOk result (λ world. IsFound traces.now world.history) }
    ensures whole { IfOk result (λ world. world.has_forgotten ≡ false) }
    ensures cut { IfErr result (λ fault. fault ≡ Cut → is_any_cut traces.now ≡ true) }
    ensures disorder { IfErr result (λ fault. fault ≡ Disorder → IsDisordered traces.now) }
    ensures mismatch { IfErr result (λ fault. fault ≡ Mismatch → IsMismatched traces.now) }
    ensures cut_first { is_any_cut traces.now ≡ true → result ≡ Err Cut }
    ensures then_stamps { AreUncut traces.now → HasFallingStamp traces.now → result ≡ Err Disorder }
{
    if has_cut(traces) {
        return Err(AuditFault::Cut);
    }
    if !all_rise(traces) {
        return Err(AuditFault::Disorder);
    }
    let Ok(mut world) = opened(alloc, traces) else {
        return Err(AuditFault::Memory);
    };
    if let Err(fault) = replay(alloc, traces, &mut world) {
        drop(world);
        return Err(fault);
    }
    if !agree(traces, world.history()) {
        drop(world);
        return Err(AuditFault::Mismatch);
    }
    Ok(world)
}

/// Replays the traces, merged by their timestamps, on one world, and compares its history with what
/// the clients saw. Returns that history, which is linearizable.
///
/// The tests are made in the order of the faults. A cut trace is `Cut`; else timestamps of a trace
/// that don't rise are `Disorder`. Both are tested before anything is allocated. If all traces are
/// lawful and uncut, the audit can only fail with `Memory`.
pub fn audit(alloc: Global, traces: &Traces) -> Result<Vec<CallEvent>, AuditFault>
    ensures found { IfOk result (λ history. IsFound traces.now history.items) }
    ensures explained { IfOk result (λ history. IsExplained history.items) }
    ensures cut { IfErr result (λ fault. fault ≡ Cut → is_any_cut traces.now ≡ true) }
    ensures cut_first { is_any_cut traces.now ≡ true → result ≡ Err Cut }
    ensures then_stamps { AreUncut traces.now → HasFallingStamp traces.now → result ≡ Err Disorder }
    ensures disorder { IfErr result (λ fault. fault ≡ Disorder → IsDisordered traces.now) }
    ensures mismatch { IfErr result (λ fault. fault ≡ Mismatch → IsMismatched traces.now) }
    ensures complete { ∥ AreLawful traces.now ∥₁ → AreUncut traces.now → IsOkUnless result Memory }
{
    match examined(alloc, traces) {
        Ok(world) => Ok(world.into_history()),
        Err(fault) => Err(fault),
    }
}
