//! A run of the program, without its devices.

ghost use Rattle.std.specs.Prelude.{◌≡◌, ◌≢◌, true, false, IfOk};
ghost use Rattle.zarguments.specs.Asked.{texts_of};
ghost use Rattle.zdevices.specs.Device.{sink_run, source_run};
ghost use Rattle.znode.specs.Running.{HasRun, HasFailed, ended_status};

use crate::fault::RunFault;
use crate::node::Node;
use crate::pipe::serve_node;
use crate::words::node_settings;
use std::alloc::Global;
use zarguments::tell;
use zdevices::{Sink, Source};

/// The exit status of a node whose server is gone. Its supervisor starts a new one.
const ENDED: u8 = 75;

/// Does what the words ask for, reports a fault on `faults`, and returns the exit status: 0 if the
/// source has ended, 75 if the node's server is gone, or that of the fault (`RunFault::status`).
pub fn node_command<S: Source, K: Sink, F: Sink>(
    alloc: Global,
    words: &[&str],
    source: &mut S,
    sink: &mut K,
    faults: &mut F,
) -> u8
    // All that the source gave was taken.
    ensures done { result ≡ 0 → HasRun false (texts_of words.now)
        (source_run S.gave S.failed S.has_ended source.old source.new)
        (sink_run K.took K.failed sink.old sink.new) }
    ensures ended { result ≡ 0 → S.has_ended source.new }
    // The node's server is gone, by the log.
    ensures gone { result ≡ ended_status → HasRun true (texts_of words.now)
        (source_run S.gave S.failed S.has_ended source.old source.new)
        (sink_run K.took K.failed sink.old sink.new) }
    // A fault ended the run, and its line was reported.
    ensures cut { result ≢ 0 → result ≢ ended_status
        → HasFailed result (sink_run F.took F.failed faults.old faults.new) }
{
    match run(alloc, words, source, sink) {
        Ok(false) => 0,
        Ok(true) => ENDED,
        Err(fault) => {
            tell(faults, fault.text());
            fault.status()
        }
    }
}

// Does what the words ask for, and returns whether the node's server is gone.
fn run<S: Source, K: Sink>(
    alloc: Global,
    words: &[&str],
    source: &mut S,
    sink: &mut K,
) -> Result<bool, RunFault>
    ensures done { IfOk result (λ ended. HasRun ended (texts_of words.now)
        (source_run S.gave S.failed S.has_ended source.old source.new)
        (sink_run K.took K.failed sink.old sink.new)) }
    ensures ended { IfOk result (λ ended. ended ≡ false → S.has_ended source.new) }
{
    let settings = node_settings(alloc, words)?;
    let mut node = Node::new(alloc, settings.name, settings.opens)?;
    serve_node(alloc, &mut node, source, sink)
}
