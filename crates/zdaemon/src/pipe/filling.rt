//! Bytes of a known length, read from a source.

ghost use Rattle.std.specs.Prelude.{◌≡◌, IfErr, OnOk, length};
ghost use Rattle.zdevices.specs.Device.{Between};

use crate::pipe::fault::ServeFault;
use zdevices::Source;

/// Fills the buffer with the next bytes of a source, and reads no byte more.
pub(crate) fn fill<S: Source>(source: &mut S, bytes: &mut [u8]) -> Result<(), ServeFault>
    ensures gave { OnOk result (Between S.gave source.old source.new bytes.new) }
    ensures room { length bytes.new ≡ length bytes.old }
    ensures ended { IfErr result (λ fault. fault ≡ ServeFault.NoInput
        → S.has_ended source.new) }
{
    let mut count = 0;
    while count < bytes.len() {
        let Ok(more) = source.read(&mut bytes[count..]) else {
            return Err(ServeFault::Read);
        };
        if more == 0 {
            return Err(ServeFault::NoInput);
        }
        count += more;
    }
    Ok(())
}
