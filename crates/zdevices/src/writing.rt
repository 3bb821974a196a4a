//! Writes all bytes, in as many writes as the sink needs.

ghost use Rattle.std.specs.Prelude.{OnOk, OnErr};
ghost use Rattle.zdevices.specs.Device.{Between, TookBeginning, Failed};

use crate::device::{DeviceFault, Sink};

/// Writes all the bytes. After a fault the sink has taken a prefix of them.
pub fn write_all<K: Sink>(sink: &mut K, bytes: &[u8]) -> Result<(), DeviceFault>
    ensures took { OnOk result (K.took sink.old bytes.now sink.new) }
    ensures sound { OnOk result (K.failed sink.old 0 sink.new) }
    ensures beginning { TookBeginning (Between K.took sink.old sink.new) bytes.now }
    ensures failed { OnErr result (Failed (Between K.failed sink.old sink.new)) }
{
    let mut done = 0;
    while done < bytes.len() {
        let count = sink.write(&bytes[done..])?;
        done += count;
    }
    Ok(())
}
