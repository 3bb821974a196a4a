//! A run of the program, without its devices.

ghost use Rattle.std.specs.Prelude.{◌≡◌, ◌≤◌, [], codes, Err};
ghost use Rattle.zarguments.specs.Asked.{texts_of};
ghost use Rattle.zdevices.specs.Device.{source_run, sink_run};
ghost use Rattle.zcommand.specs.Asked.{settings_asked};
ghost use Rattle.zarguments.specs.Reporting.{IsReported};
ghost use Rattle.zcommand.specs.Command.{IsPlayedAsAsked, IsCutAndReported};

use crate::words::settings;
use std::alloc::Global;
use zarguments::{WordsFault, refuse, tell};
use zscript::{Sink, Source, play};

/// Does what the words ask for, reports a fault on `faults`, and returns the exit status.
///
/// The status is 0 where the script was played to its end, and 1 after a device's fault or out of
/// memory. It is 2 where the words are not understood. A failure of `faults` changes nothing else.
pub fn command<S: Source, K: Sink, F: Sink>(
    alloc: Global,
    words: &[&str],
    source: &mut S,
    sink: &mut K,
    faults: &mut F,
) -> u8
    ensures status { result ≤ 2 }

    // All was played, by the number of servers that the words ask for, and no fault was reported.
    ensures played { result ≡ 0 → IsPlayedAsAsked (texts_of words.now)
        (source_run S.gave S.failed S.has_ended source.old source.new)
        (sink_run K.took K.failed sink.old sink.new) }
    ensures silent { result ≡ 0 → F.took faults.old [] faults.new }

    // A fault ended the run, and was reported.
    ensures cut { result ≡ 1 → IsCutAndReported (texts_of words.now)
        (source_run S.gave S.failed S.has_ended source.old source.new)
        (sink_run K.took K.failed sink.old sink.new)
        (sink_run F.took F.failed faults.old faults.new) }

    // The words are bad, and nothing was read or written.
    ensures bad { result ≡ 2 → settings_asked (texts_of words.now) ≡ Err WordsFault.BadWords }
    ensures idle { result ≡ 2 → (source.new ≡ source.old) × (sink.new ≡ sink.old) }
    ensures refused { result ≡ 2 → IsReported
        (sink_run F.took F.failed faults.old faults.new) (codes "zk: bad words") }
{
    let last = match settings(alloc, words) {
        Ok(last) => last,
        Err(fault) => return refuse(fault, faults),
    };
    match play(alloc, source, sink, last) {
        Ok(()) => 0,
        Err(fault) => {
            tell(faults, fault.text());
            1
        }
    }
}
