//! A race from its start to its audit.

ghost use Rattle.std.specs.Prelude.{◌≡◌, ◌≢◌, false, length, IfErr, IfOk};
ghost use Rattle.zprotocol.specs.traces.Audit.{is_any_cut};
ghost use Rattle.zprotocol.specs.traces.Lawful.{AreLawful};
ghost use Rattle.zaudit.specs.declared.faults.AuditFault.TheVariants.{Disorder, Mismatch};
ghost use Rattle.zrace.specs.Races.{IsAuditOf, IsFinishOf, IsOutcomeOf};

use crate::field::Field;
use crate::outcome::Outcome;
use crate::plan::Race;
use crate::room::Room;
use std::alloc::Global;
use std::sync::Wait;
use std::thread::Threads;
use zaudit::{AuditFault, audit};
use zprotocol::traces::Traces;
use zrun::{Cluster, StartFault, open_gates};

/// What a race leaves.
#[derive(Drop)]
pub struct Finish {
    /// Each node's version, as a client received it. `None` where no client received one.
    pub versions: Vec<Option<u64>>,
    /// The traces of all processes.
    pub traces: Traces,
}

/// Runs a race over real threads, joins them, and audits the run.
///
/// The audit is that of the traces of a run over the race's servers and clients. Each version is
/// one that a client of that run received. Unless a trace is cut, the record of a client has it, in
/// the reply to this client's call for the node. The audit never refutes the run: it is ok, or a
/// trace is cut, or memory ran out.
pub fn race<R: Threads + Wait + Copy + Send + 'static>(
    rt: R,
    alloc: Global,
    race: &Race,
) -> Result<Outcome, StartFault>
    ensures nodes { IfOk result (λ outcome. length outcome.versions.items ≡ race.now.rounds) }
    ensures audit { IfOk result (λ outcome.
        IfErr outcome.audit (λ fault. (fault ≢ Disorder) × (fault ≢ Mismatch))) }
    ensures run { IfOk result (IsOutcomeOf race.now) }
{
    let finish = run(rt, alloc, race)?;
    let audit = audited(alloc, &finish.traces);
    let Finish { versions, .. } = finish;
    Ok(Outcome { versions, audit })
}

/// Runs a race over real threads, and joins them. Unless a trace is cut, each version is in the
/// record of a client in the traces.
pub fn run<R: Threads + Wait + Copy + Send + 'static>(
    rt: R,
    alloc: Global,
    race: &Race,
) -> Result<Finish, StartFault>
    ensures nodes { IfOk result (λ finish. length finish.versions.items ≡ race.now.rounds) }
    ensures run { IfOk result (IsFinishOf race.now) }
{
    let room = Room::new(alloc, race)?;
    let gates = open_gates(alloc)?;
    let (cluster, console, clients) = Cluster::start(
        rt,
        alloc,
        race.last,
        race.clients + 1,
        gates,
    )?;
    let (mut field, seats) = Field::new(room, clients);
    let started = field.start_all(rt, alloc, race, seats);
    field.join_all(&rt);
    let Field {
        versions,
        clients,
        ..
    } = field;
    let traces = cluster.join(&rt, alloc, console, clients)?;
    started?;
    Ok(Finish { versions, traces })
}

// Audits traces that are lawful, unless one is cut.
fn audited(alloc: Global, traces: &Traces) -> Result<(), AuditFault>
    requires { is_any_cut traces.now ≡ false → ∥ AreLawful traces.now ∥₁ }
    ensures fault { IfErr result (λ fault. (fault ≢ Disorder) × (fault ≢ Mismatch)) }
    ensures audit { IsAuditOf traces.now result }
{
    match audit(alloc, traces) {
        Ok(history) => {
            drop(history);
            Ok(())
        }
        Err(fault) => Err(fault),
    }
}
