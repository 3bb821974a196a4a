//! The report of a race on the program's devices.

ghost use Rattle.std.specs.Prelude.{◌≡◌, ◌≤◌, [], All, IsErr, IsOk, IsSome};
ghost use Rattle.zdevices.specs.Device.{sink_run};
ghost use Rattle.zarguments.specs.Reporting.{IsReported};
ghost use Rattle.zrace.specs.Run.{IsGoodReport, IsNotGoodReport, start_fault_text};

use crate::{Outcome, StartFault};
use std::alloc::Global;
use zarguments::{WordsFault, refuse, tell};
use zdevices::{Sink, write_all};

/// Writes the lines of a race to `sink`, and returns the exit status.
///
/// The status is 0 where each node was answered and the audit is ok. Else it is 1, also after a
/// device's fault or where memory ran out: these are written to `faults`.
pub(crate) fn report<K: Sink, F: Sink>(
    alloc: Global,
    outcome: &Outcome,
    sink: &mut K,
    faults: &mut F,
) -> u8
    ensures status { result ≤ 1 }
    ensures good { result ≡ 0 → IsGoodReport outcome.now
        (sink_run K.took K.failed sink.old sink.new) }
    ensures silent { result ≡ 0 → F.took faults.old [] faults.new }
    ensures not_good { result ≡ 1 → IsNotGoodReport outcome.now
        (sink_run K.took K.failed sink.old sink.new)
        (sink_run F.took F.failed faults.old faults.new) }
{
    let Ok(text) = outcome.text(alloc) else {
        return refuse(WordsFault::Memory, faults);
    };
    if write_all(sink, text.as_bytes()).is_err() {
        tell(faults, "zk: write failed");
        return 1;
    }
    status_of(outcome)
}

// Returns the exit status of a race whose lines are written.
fn status_of(outcome: &Outcome) -> u8
    ensures status { result ≤ 1 }
    ensures good { result ≡ 0 → All IsSome outcome.now.versions.items × IsOk outcome.now.audit }
    ensures bad { result ≡ 1 → All IsSome outcome.now.versions.items → IsErr outcome.now.audit }
{
    if outcome.is_good() { 0 } else { 1 }
}

/// Writes to `faults` why there was no race. Returns the exit status, which is 1.
pub(crate) fn refuse_start<F: Sink>(fault: StartFault, faults: &mut F) -> u8
    ensures status { result ≡ 1 }
    ensures reported { IsReported
        (sink_run F.took F.failed faults.old faults.new) (start_fault_text fault) }
{
    match fault {
        StartFault::Memory => refuse(WordsFault::Memory, faults),
        StartFault::Thread => {
            tell(faults, "zk: thread");
            1
        }
    }
}
