//! How a program reports a fault.

ghost use Rattle.std.specs.Prelude.{◌≡◌};
ghost use Rattle.zdevices.specs.Device.{sink_run};
ghost use Rattle.zarguments.specs.Reporting.{IsReported};
ghost use Rattle.zarguments.specs.Words.{words_fault_status, words_fault_text};

use crate::fault::WordsFault;
use zdevices::{Sink, write_all};

/// Reports why the words are no command, and returns the exit status.
pub fn refuse<F: Sink>(fault: WordsFault, faults: &mut F) -> u8
    ensures status { result ≡ words_fault_status fault }
    ensures reported { IsReported
        (sink_run F.took F.failed faults.old faults.new) (words_fault_text fault) }
{
    tell(faults, fault.text());
    fault.status()
}

/// Writes a line. Only a fault of the device cuts it.
pub fn tell<F: Sink>(faults: &mut F, text: &str)
    ensures { IsReported (sink_run F.took F.failed faults.old faults.new) text.now }
{
    let Ok(()) = write_all(faults, text.as_bytes()) else {
        return;
    };
    let Ok(()) = write_all(faults, b"\n") else {
        return;
    };
}
