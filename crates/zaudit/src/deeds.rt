//! One step of a trace, on the world.

ghost use Rattle.std.specs.Prelude.{◌≡◌, ◌⊎◌, IfOk, IfErr, OnOk};
ghost use Rattle.zprotocol.specs.traces.Traces.{event_of};
ghost use Rattle.zaudit.specs.support.Replays.{HappensInPlace, CannotHappen, ActsInPlace, CannotAct};
ghost use Rattle.zaudit.specs.support.Verdict.{asks_the_master, verdict};
ghost use Rattle.zaudit.specs.declared.faults.AuditFault.TheVariants.{Disorder, Memory};

use crate::faults::AuditFault;
use std::alloc::Global;
use zprotocol::Process;
use zprotocol::traces::Act;
use zprotocol::world::{Event, Outcome};
use zworld::{Did, World};

// Returns the event of the world that a step represents, if there is one.
fn event_for(alloc: Global, process: Process, act: &Act) -> Result<Option<Event>, zalloc::Memory>
    ensures { IfOk result (λ event. event ≡ event_of process act.now) }
{
    match (process, act) {
        (_, Act::Took(from, Outcome::Acted)) => Ok(Some(Event::Take(*from, process))),
        (Process::Server(_), Act::Took(from, Outcome::Unheard)) => {
            Ok(Some(Event::Ignore(*from, process)))
        }
        (Process::Server(server), Act::Took(_, Outcome::Stopped)) => Ok(Some(Event::Fail(server))),
        (Process::Server(_), Act::Left) => Ok(Some(Event::Take(Process::Master, process))),
        (Process::Server(server), Act::Halted) => Ok(Some(Event::Fail(server))),
        (Process::Master, Act::Ordered(order)) => Ok(Some(Event::Order(*order))),
        (Process::Client(client), Act::Began(call)) => {
            Ok(Some(Event::Begin(client, call.copied(alloc)?)))
        }
        (Process::Client(client), Act::Retried) => Ok(Some(Event::Retry(client))),
        _ => Ok(None),
    }
}

// Returns whether it is an order to the master, which may refuse it.
fn asks_the_master(event: &Event) -> bool
    ensures { result ≡ asks_the_master event.now }
{
    matches!(event, Event::Order(_))
}

// Returns what the world's answer means. An event that isn't enabled is `Disorder`, unless the
// master may refuse it. A server that runs out of memory now, though it didn't in its trace, is
// `Memory`.
fn judge(may_be_refused: bool, did: Did) -> Result<(), AuditFault>
    ensures { result ≡ verdict may_be_refused did }
{
    match did {
        Did::Done => Ok(()),
        Did::Idle(_) => {
            if may_be_refused {
                Ok(())
            } else {
                Err(AuditFault::Disorder)
            }
        }
        Did::Unheard => Err(AuditFault::Memory),
        Did::Stopped => Err(AuditFault::Memory),
    }
}

// Does an event, if it is enabled at this position.
fn place(world: &mut World, event: Event) -> Result<(), AuditFault>
    ensures ok { OnOk result (HappensInPlace world.old event world.new) }
    ensures disorder { IfErr result (λ fault. fault ≡ Disorder → CannotHappen world.old event) }
    ensures past { world.new.has_forgotten ≡ world.old.has_forgotten }
    ensures only { IfErr result (λ fault. (fault ≡ Disorder) ⊎ (fault ≡ Memory)) }
{
    let may_be_refused = asks_the_master(&event);
    match world.step(event) {
        Ok(did) => judge(may_be_refused, did),
        Err(_) => Err(AuditFault::Memory),
    }
}

/// Does the event of the world that a step represents, if it is enabled at this position.
pub(crate) fn replay_act(
    alloc: Global,
    world: &mut World,
    process: Process,
    act: &Act,
) -> Result<(), AuditFault>
    ensures ok { OnOk result (ActsInPlace world.old process act.now world.new) }
    ensures disorder { IfErr result
        (λ fault. fault ≡ Disorder → CannotAct world.old process act.now) }
    ensures past { world.new.has_forgotten ≡ world.old.has_forgotten }
    ensures only { IfErr result (λ fault. (fault ≡ Disorder) ⊎ (fault ≡ Memory)) }
{
    match event_for(alloc, process, act) {
        Ok(Some(event)) => place(world, event),
        Ok(None) => Err(AuditFault::Disorder),
        Err(_) => Err(AuditFault::Memory),
    }
}
