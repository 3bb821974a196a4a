//! Readers of fields: each takes one from the front of the bytes and returns it with the rest.

ghost use Rattle.std.specs.Prelude.{◌≡◌};
ghost use Rattle.zcodec.specs.Readers.{Reads, Gives, ended};
ghost use Rattle.zjute.specs.Jute.{int, long, buffer, text, left};

use crate::bytes::Bytes;
use crate::limits::MAX_FRAME;
use std::alloc::Global;
use zcodec::{Fault, NULL, ReadError, end, u32_at};

/// Reads an `int`.
#[tactic(auto, unfolding(crate::specs::Jute::int, zcodec::specs::Forms::number_at))]
pub(crate) fn int_at(bytes: &[u8]) -> Result<(i32, &[u8]), Fault>
    ensures { Reads (λ x. (x.0, x.1.now)) result (int.read bytes.now) }
{
    match bytes.split_first_chunk::<4>() {
        Some((front, rest)) => Ok((i32::from_be_bytes(*front), rest)),
        None => Err(Fault::Short),
    }
}

/// Reads a `long`.
#[tactic(auto, unfolding(crate::specs::Jute::long, zcodec::specs::Forms::number_at))]
pub(crate) fn long_at(bytes: &[u8]) -> Result<(i64, &[u8]), Fault>
    ensures { Reads (λ x. (x.0, x.1.now)) result (long.read bytes.now) }
{
    match bytes.split_first_chunk::<8>() {
        Some((front, rest)) => Ok((i64::from_be_bytes(*front), rest)),
        None => Err(Fault::Short),
    }
}

/// Reads a `buffer` or a `ustring`, which may be null.
#[tactic(auto, unfolding(crate::specs::Jute::buffer))]
pub(crate) fn buffer_of(alloc: Global, bytes: &[u8]) -> Result<(Option<Bytes>, &[u8]), ReadError>
    ensures { Gives (λ x. (x.0, x.1.now)) result (buffer.read bytes.now) }
{
    let (len, rest) = u32_at(bytes)?;
    if len == NULL {
        return Ok((None, rest));
    }
    if len > MAX_FRAME {
        return Err(ReadError::Fault(Fault::Long));
    }
    match rest.split_at_checked(len as usize) {
        Some((text, rest)) => Ok((Some(Bytes::copied(alloc, text)?), rest)),
        None => Err(ReadError::Fault(Fault::Short)),
    }
}

/// Reads a `ustring` that isn't null.
#[tactic(auto, unfolding(crate::specs::Jute::text))]
pub(crate) fn text_of(alloc: Global, bytes: &[u8]) -> Result<(Bytes, &[u8]), ReadError>
    ensures { Gives (λ x. (x.0, x.1.now)) result (text.read bytes.now) }
{
    let (len, rest) = u32_at(bytes)?;
    if len > MAX_FRAME {
        return Err(ReadError::Fault(Fault::Long));
    }
    match rest.split_at_checked(len as usize) {
        Some((text, rest)) => Ok((Bytes::copied(alloc, text)?, rest)),
        None => Err(ReadError::Fault(Fault::Short)),
    }
}

/// Reads all remaining bytes.
#[tactic(auto, unfolding(crate::specs::Jute::left))]
pub(crate) fn left_of(alloc: Global, bytes: &[u8]) -> Result<(Bytes, &[u8]), ReadError>
    ensures { Gives (λ x. (x.0, x.1.now)) result (left.read bytes.now) }
{
    if bytes.len() > MAX_FRAME as usize {
        return Err(ReadError::Fault(Fault::Long));
    }
    Ok((Bytes::copied(alloc, bytes)?, &[]))
}

/// Returns a value, if nothing follows it.
pub(crate) fn whole_of<T: Drop>(value: T, rest: &[u8]) -> Result<T, ReadError>
    ensures { Gives (λ x. x) result (ended value rest.now) }
{
    match end(rest) {
        Ok(()) => Ok(value),
        Err(fault) => {
            drop(value);
            Err(ReadError::Fault(fault))
        }
    }
}
