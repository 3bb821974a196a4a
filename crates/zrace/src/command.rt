//! The program `zk race` without its devices.

ghost use Rattle.std.specs.Prelude.{◌≡◌, ◌≤◌, [], codes};
ghost use Rattle.zdevices.specs.Device.{sink_run};
ghost use Rattle.zarguments.specs.Reporting.{IsReported};
ghost use Rattle.zarguments.specs.Asked.{texts_of};
ghost use Rattle.zrace.specs.declared.plan.Race.{Race};
ghost use Rattle.zrace.specs.Asked.{IsRaceAsked};
ghost use Rattle.zrace.specs.Run.{IsGoodRace, IsNotGood};

use crate::race;
use crate::reporting::{refuse_start, report};
use crate::words::race_settings;
use std::alloc::Global;
use std::sync::Wait;
use std::thread::Threads;
use zarguments::refuse;
use zdevices::Sink;

/// Runs the race that the words ask for, and writes its lines to `sink`. A fault is written to
/// `faults`. Returns the exit status.
///
/// The status is 0 where each node was answered and the audit is ok, and 2 where the words are not
/// understood. It is 1 after a device's fault, where memory ran out, where a thread could not be
/// started, where a node has no answer, and where the audit isn't ok.
pub fn race_command<R: Threads + Wait + Copy + Send + 'static, K: Sink, F: Sink>(
    rt: R,
    alloc: Global,
    words: &[&str],
    sink: &mut K,
    faults: &mut F,
) -> u8
    ensures status { result ≤ 2 }

    // Each node of the race that the words ask for was answered, the audit is ok, and there was no
    // fault.
    ensures good { result ≡ 0 → IsGoodRace (texts_of words.now)
        (sink_run K.took K.failed sink.old sink.new) }
    ensures silent { result ≡ 0 → F.took faults.old [] faults.new }

    // There was no race, or its lines were not written, or it isn't good.
    ensures not_good { result ≡ 1 → IsNotGood (texts_of words.now)
        (sink_run K.took K.failed sink.old sink.new)
        (sink_run F.took F.failed faults.old faults.new) }

    // The words are bad, and nothing was written.
    ensures bad { result ≡ 2 → (race : Race) → IsRaceAsked (texts_of words.now) race → ⊥ }
    ensures idle { result ≡ 2 → sink.new ≡ sink.old }
    ensures refused { result ≡ 2 → IsReported
        (sink_run F.took F.failed faults.old faults.new) (codes "zk: bad words") }
{
    let race_asked = match race_settings(alloc, words) {
        Ok(race) => race,
        Err(fault) => return refuse(fault, faults),
    };
    match race(rt, alloc, &race_asked) {
        Ok(outcome) => report(alloc, &outcome, sink, faults),
        Err(fault) => refuse_start(fault, faults),
    }
}
