//! Readers: each takes a value from the front of the bytes and returns it with the rest.
//!
//! A reader returns exactly what its form reads, or the form's fault.

ghost use Rattle.std.specs.Prelude.{◌≡◌, ◌<◌, ◌≤◌};
ghost use Rattle.std.specs.Int.{w8, w32, w64};
ghost use Rattle.std.specs.Option.{option_map};
ghost use Rattle.zcodec.specs.Forms.{exactly, number};
ghost use Rattle.zcodec.specs.Choices.{flag, at_most, null_or, sized, buffer};
ghost use Rattle.zcodec.specs.Readers.{Reads, ended};

use crate::fault::Fault;
use crate::limits::NULL;

/// A byte, as a number.
#[tactic(auto, unfolding(crate::specs::Forms::number_at))]
pub fn u8_at(bytes: &[u8]) -> Result<(u8, &[u8]), Fault>
    ensures { Reads (λ x. (x.0, x.1.now)) result ((number w8).read bytes.now) }
{
    match bytes.split_first_chunk::<1>() {
        Some((front, rest)) => Ok((u8::from_be_bytes(*front), rest)),
        None => Err(Fault::Short),
    }
}

/// A number in four bytes.
#[tactic(auto, unfolding(crate::specs::Forms::number_at))]
pub fn u32_at(bytes: &[u8]) -> Result<(u32, &[u8]), Fault>
    ensures { Reads (λ x. (x.0, x.1.now)) result ((number w32).read bytes.now) }
{
    match bytes.split_first_chunk::<4>() {
        Some((front, rest)) => Ok((u32::from_be_bytes(*front), rest)),
        None => Err(Fault::Short),
    }
}

/// A number in eight bytes.
#[tactic(auto, unfolding(crate::specs::Forms::number_at))]
pub fn u64_at(bytes: &[u8]) -> Result<(u64, &[u8]), Fault>
    ensures { Reads (λ x. (x.0, x.1.now)) result ((number w64).read bytes.now) }
{
    match bytes.split_first_chunk::<8>() {
        Some((front, rest)) => Ok((u64::from_be_bytes(*front), rest)),
        None => Err(Fault::Short),
    }
}

/// A byte that is 0 for false or 1 for true.
pub fn flag_at(bytes: &[u8]) -> Result<(bool, &[u8]), Fault>
    ensures { Reads (λ x. (x.0, x.1.now)) result (flag.read bytes.now) }
{
    let (number, rest) = u8_at(bytes)?;
    match number {
        0 => Ok((false, rest)),
        1 => Ok((true, rest)),
        _ => Err(Fault::Invalid),
    }
}

/// Exactly `len` bytes.
pub fn exactly_at(len: usize, bytes: &[u8]) -> Result<(&[u8], &[u8]), Fault>
    ensures { Reads (λ x. (x.0.now, x.1.now)) result ((exactly len).read bytes.now) }
{
    bytes.split_at_checked(len).ok_or(Fault::Short)
}

/// A length or a count in four bytes, at most `most`.
pub fn length_at(most: u32, bytes: &[u8]) -> Result<(u32, &[u8]), Fault>
    ensures { Reads (λ x. (x.0, x.1.now)) result ((at_most most).read bytes.now) }
{
    let (len, rest) = u32_at(bytes)?;
    if len > most {
        return Err(Fault::Long);
    }
    Ok((len, rest))
}

/// A length or a count in four bytes, at most `most`; or `None` if it is `NULL`.
pub fn length_or_null_at(most: u32, bytes: &[u8]) -> Result<(Option<u32>, &[u8]), Fault>
    ensures { Reads (λ x. (x.0, x.1.now)) result ((null_or most).read bytes.now) }
{
    let (len, rest) = u32_at(bytes)?;
    match len {
        NULL => Ok((None, rest)),
        _ if len > most => Err(Fault::Long),
        _ => Ok((Some(len), rest)),
    }
}

/// At most `most` bytes, after their length in four bytes.
pub fn sized_at(most: u32, bytes: &[u8]) -> Result<(&[u8], &[u8]), Fault>
    ensures { Reads (λ x. (x.0.now, x.1.now)) result ((sized most).read bytes.now) }
{
    let (len, rest) = length_at(most, bytes)?;
    exactly_at(len as usize, rest)
}

/// At most `most` bytes after their length in four bytes; or `None` if the length is `NULL`.
pub fn buffer_at(most: u32, bytes: &[u8]) -> Result<(Option<&[u8]>, &[u8]), Fault>
    ensures { Reads (λ x. (option_map (λ text. text.now) x.0, x.1.now)) result
        ((buffer most).read bytes.now) }
{
    let (len, rest) = length_or_null_at(most, bytes)?;
    match len {
        None => Ok((None, rest)),
        Some(len) => {
            let (text, rest) = exactly_at(len as usize, rest)?;
            Ok((Some(text), rest))
        }
    }
}

/// The end: no bytes remain.
pub fn end(bytes: &[u8]) -> Result<(), Fault>
    ensures { Reads (λ x. x) result (ended tt bytes.now) }
{
    if bytes.is_empty() {
        Ok(())
    } else {
        Err(Fault::Trailing)
    }
}
