//! The secret, the first bytes that a host sends.

ghost use Rattle.std.specs.Prelude.{◌≡◌, IfErr, IfOk, length};
ghost use Rattle.zdevices.specs.Device.{Between};

use crate::pipe::fault::ServeFault;
use crate::pipe::filling::fill;
use zdevices::Source;
use zpasswords::Secret;

/// Reads the secret: the next 32 bytes of a source, and no byte more.
pub fn read_secret<S: Source>(source: &mut S) -> Result<Secret, ServeFault>
    ensures gave { IfOk result (Between S.gave source.old source.new) }
    ensures whole { IfOk result (λ secret. length secret ≡ 32) }
    ensures ended { IfErr result (λ fault. fault ≡ ServeFault.NoInput
        → S.has_ended source.new) }
{
    let mut bytes = [0; 32];
    fill(source, &mut bytes)?;
    Ok(Secret::new(bytes))
}
