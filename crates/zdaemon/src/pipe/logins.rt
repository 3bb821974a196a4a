//! What a host says of logins, after the secret.

ghost use Rattle.std.specs.Prelude.{◌≡◌, ◌≤◌, [], ◌∷◌, IfOk, length};
ghost use Rattle.std.specs.Int.{to_be_bytes, w32};
ghost use Rattle.std.specs.Option.{option_map};
ghost use Rattle.zdevices.specs.Device.{Between};
ghost use Rattle.zdaemon.specs.Guarded.{IsShort, logins_told, sized_text};

use crate::pipe::fault::ServeFault;
use crate::pipe::filling::fill;
use crate::pipe::limits::MAX_LOGINS;
use std::alloc::Global;
use zdevices::Source;

/// Reads the next bytes of a source, and no byte more: a 0 if there are no logins; or a 1, the
/// length of their text in four bytes, and the text.
pub fn read_logins<S: Source>(alloc: Global, source: &mut S) -> Result<Option<Vec<u8>>, ServeFault>
    ensures gave { IfOk result (λ text. Between S.gave source.old source.new
        (logins_told (option_map (λ text. text.items) text))) }
    ensures short { IfOk result (λ text. IsShort (option_map (λ text. text.items) text)) }
{
    let tag = read_tag(source)?;
    match tag {
        0 => Ok(None),
        1 => Ok(Some(read_text(alloc, source)?)),
        _ => Err(ServeFault::NoInput),
    }
}

// Reads a byte.
fn read_tag<S: Source>(source: &mut S) -> Result<u8, ServeFault>
    ensures { IfOk result (λ tag. Between S.gave source.old source.new (tag ∷ [])) }
{
    let mut bytes = [0];
    fill(source, &mut bytes)?;
    Ok(bytes[0])
}

// Reads a length, and so many bytes.
fn read_text<S: Source>(alloc: Global, source: &mut S) -> Result<Vec<u8>, ServeFault>
    ensures gave { IfOk result (λ text. Between S.gave source.old source.new
        (sized_text text.items)) }
    ensures short { IfOk result (λ text. length text.items ≤ MAX_LOGINS) }
{
    let length = read_length(source)?;
    if length > MAX_LOGINS {
        return Err(ServeFault::NoInput);
    }
    let mut text = vec![in alloc; 0; length as usize]?;
    fill(source, &mut text)?;
    Ok(text)
}

// Reads a length.
fn read_length<S: Source>(source: &mut S) -> Result<u32, ServeFault>
    ensures { IfOk result (λ length. Between S.gave source.old source.new
        (to_be_bytes w32 length)) }
{
    let mut bytes = [0; 4];
    fill(source, &mut bytes)?;
    Ok(number(&bytes))
}

// Returns the number that four bytes spell.
fn number(bytes: &[u8]) -> u32
    requires { length bytes.now ≡ 4 }
    ensures { to_be_bytes w32 result ≡ bytes.now }
{
    let Some((front, _)) = bytes.split_first_chunk::<4>() else {
        unreachable!()
    };
    u32::from_be_bytes(*front)
}
