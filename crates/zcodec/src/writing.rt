//! Writers: each appends an encoding to a vector.
//!
//! A writer fails only if memory runs out, and then leaves the vector as it was.

ghost use Rattle.std.specs.Prelude.{◌≡◌, ◌<◌, ◌^◌, ◌-◌, ◌++◌, length, OnOk, OnErr};
ghost use Rattle.std.specs.Int.{w8, w32, w64};
ghost use Rattle.std.specs.Option.{option_map};
ghost use Rattle.zcodec.specs.Forms.{number};
ghost use Rattle.zcodec.specs.Choices.{flag, sized, buffer, FitsNull};

use crate::limits::NULL;
use std::alloc::AllocError;

/// A byte.
pub fn put_u8(out: &mut Vec<u8>, value: u8) -> Result<(), AllocError>
    ensures ok { OnOk result (out.new.items ≡ out.old.items ++ (number w8).spell value) }
    ensures err { OnErr result (out.new.items ≡ out.old.items) }
{
    let text: [u8; 1] = value.to_be_bytes();
    out.extend_from_slice(&text)
}

/// A number in four bytes.
pub fn put_u32(out: &mut Vec<u8>, value: u32) -> Result<(), AllocError>
    ensures ok { OnOk result (out.new.items ≡ out.old.items ++ (number w32).spell value) }
    ensures err { OnErr result (out.new.items ≡ out.old.items) }
{
    let text: [u8; 4] = value.to_be_bytes();
    out.extend_from_slice(&text)
}

/// A number in eight bytes.
pub fn put_u64(out: &mut Vec<u8>, value: u64) -> Result<(), AllocError>
    ensures ok { OnOk result (out.new.items ≡ out.old.items ++ (number w64).spell value) }
    ensures err { OnErr result (out.new.items ≡ out.old.items) }
{
    let text: [u8; 8] = value.to_be_bytes();
    out.extend_from_slice(&text)
}

/// A byte: 1 for true, 0 for false.
pub fn put_flag(out: &mut Vec<u8>, value: bool) -> Result<(), AllocError>
    ensures ok { OnOk result (out.new.items ≡ out.old.items ++ flag.spell value) }
    ensures err { OnErr result (out.new.items ≡ out.old.items) }
{
    put_u8(out, if value { 1 } else { 0 })
}

/// Bytes, after their length in four bytes.
pub fn put_sized(out: &mut Vec<u8>, bytes: &[u8]) -> Result<(), AllocError>
    requires { length bytes.now < 2 ^ 32 }
    ensures ok { OnOk result
        (out.new.items ≡ out.old.items ++ (sized (2 ^ 32 - 1)).spell bytes.now) }
    ensures err { OnErr result (out.new.items ≡ out.old.items) }
{
    let before = out.len();
    put_u32(out, bytes.len() as u32)?;
    if let Err(error) = out.extend_from_slice(bytes) {
        out.truncate(before);
        return Err(error);
    }
    Ok(())
}

/// Bytes after their length in four bytes, or `NULL` for `None`.
pub fn put_buffer(out: &mut Vec<u8>, bytes: Option<&[u8]>) -> Result<(), AllocError>
    requires { FitsNull (2 ^ 32 - 2) (option_map (λ text. length text.now) bytes) }
    ensures ok { OnOk result (out.new.items ≡ out.old.items
        ++ (buffer (2 ^ 32 - 2)).spell (option_map (λ text. text.now) bytes.entry)) }
    ensures err { OnErr result (out.new.items ≡ out.old.items) }
{
    match bytes {
        Some(bytes) => put_sized(out, bytes),
        None => put_u32(out, NULL),
    }
}
