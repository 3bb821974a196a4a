//! Readers of the parts of a multi and of a multiRead.

ghost use Rattle.std.specs.Prelude.{◌≡◌};
ghost use Rattle.zcodec.specs.Readers.{Reads, Gives};
ghost use Rattle.zjute.specs.Parts.{part_header, part_at, part_or_end, parts};
ghost use Rattle.zjute.specs.Parts.{look_header, look_at, look_or_end, looks};

use crate::field_reading::int_at;
use crate::part::{LookPart, Looks, PartRequest, Parts};
use crate::part_kind::{LookKind, PartKind};
use crate::record_reading::{at_version_of, create_of, create_ttl_of, look_of, set_data_of};
use std::alloc::Global;
use zcodec::{Fault, ReadError, flag_at};

// Reads the header before a part: the kind of the part, or `None` at the end.
#[tactic(auto, unfolding(crate::specs::Parts::part_header))]
fn part_header_at(bytes: &[u8]) -> Result<(Option<PartKind>, &[u8]), Fault>
    ensures { Reads (λ x. (x.0, x.1.now)) result (part_header.read bytes.now) }
{
    let (number, rest) = int_at(bytes)?;
    let (is_end, rest) = flag_at(rest)?;
    let (code, rest) = int_at(rest)?;
    if code != -1 {
        return Err(Fault::Invalid);
    }
    if is_end {
        return if number == -1 {
            Ok((None, rest))
        } else {
            Err(Fault::Invalid)
        };
    }
    match PartKind::of(number) {
        Some(kind) => Ok((Some(kind), rest)),
        None => Err(Fault::Invalid),
    }
}

// Returns the result of reading as a part of this kind.
macro_rules! part {
    ($kind:ident, $read:expr) => {
        match $read {
            Ok((it, rest)) => Ok((PartRequest::$kind(it), rest)),
            Err(error) => Err(error),
        }
    };
}

// Reads a part of this kind.
fn part_of(alloc: Global, kind: PartKind, bytes: &[u8]) -> Result<(PartRequest, &[u8]), ReadError>
    ensures { Gives (λ x. (x.0, x.1.now)) result (part_at kind bytes.now) }
{
    match kind {
        PartKind::Create => part!(Create, create_of(alloc, bytes)),
        PartKind::Delete => part!(Delete, at_version_of(alloc, bytes)),
        PartKind::SetData => part!(SetData, set_data_of(alloc, bytes)),
        PartKind::Check => part!(Check, at_version_of(alloc, bytes)),
        PartKind::Create2 => part!(Create2, create_of(alloc, bytes)),
        PartKind::CreateContainer => part!(CreateContainer, create_of(alloc, bytes)),
        PartKind::CreateTtl => part!(CreateTtl, create_ttl_of(alloc, bytes)),
    }
}

// Reads a part with its header, or the end.
#[tactic(auto, unfolding(crate::specs::Parts::part_or_end))]
fn part_or_end_of(alloc: Global, bytes: &[u8]) -> Result<(Option<PartRequest>, &[u8]), ReadError>
    ensures { Gives (λ x. (x.0, x.1.now)) result (part_or_end.read bytes.now) }
{
    let (kind, rest) = part_header_at(bytes)?;
    match kind {
        None => Ok((None, rest)),
        Some(kind) => {
            let (part, rest) = part_of(alloc, kind, rest)?;
            Ok((Some(part), rest))
        }
    }
}

/// Reads the parts of a multi, up to the end.
#[tactic(auto, unfolding(crate::specs::Parts::parts))]
pub(crate) fn parts_of(alloc: Global, bytes: &[u8]) -> Result<(Parts, &[u8]), ReadError>
    ensures { Gives (λ x. (x.0, x.1.now)) result (parts.read bytes.now) }
{
    let mut parts = Vec::new(alloc);
    let mut rest = bytes;
    for _ in 0..bytes.len() {
        let (part, after) = part_or_end_of(alloc, rest)?;
        match part {
            None => return Ok((Parts::new(parts), after)),
            Some(part) => parts.push(part)?,
        }
        rest = after;
    }
    Err(ReadError::Fault(Fault::Short))
}

// Reads the header before a part of a multiRead: its kind, or `None` at the end.
#[tactic(auto, unfolding(crate::specs::Parts::look_header))]
fn look_header_at(bytes: &[u8]) -> Result<(Option<LookKind>, &[u8]), Fault>
    ensures { Reads (λ x. (x.0, x.1.now)) result (look_header.read bytes.now) }
{
    let (number, rest) = int_at(bytes)?;
    let (is_end, rest) = flag_at(rest)?;
    let (code, rest) = int_at(rest)?;
    if code != -1 {
        return Err(Fault::Invalid);
    }
    if is_end {
        return if number == -1 {
            Ok((None, rest))
        } else {
            Err(Fault::Invalid)
        };
    }
    match LookKind::of(number) {
        Some(kind) => Ok((Some(kind), rest)),
        None => Err(Fault::Invalid),
    }
}

// Reads a part of a multiRead of this kind.
fn look_part_of(alloc: Global, kind: LookKind, bytes: &[u8]) -> Result<(LookPart, &[u8]), ReadError>
    ensures { Gives (λ x. (x.0, x.1.now)) result (look_at kind bytes.now) }
{
    match kind {
        LookKind::GetData => {
            let (look, rest) = look_of(alloc, bytes)?;
            Ok((LookPart::GetData(look), rest))
        }
        LookKind::GetChildren => {
            let (look, rest) = look_of(alloc, bytes)?;
            Ok((LookPart::GetChildren(look), rest))
        }
    }
}

// Reads a part of a multiRead with its header, or the end.
#[tactic(auto, unfolding(crate::specs::Parts::look_or_end))]
fn look_or_end_of(alloc: Global, bytes: &[u8]) -> Result<(Option<LookPart>, &[u8]), ReadError>
    ensures { Gives (λ x. (x.0, x.1.now)) result (look_or_end.read bytes.now) }
{
    let (kind, rest) = look_header_at(bytes)?;
    match kind {
        None => Ok((None, rest)),
        Some(kind) => {
            let (look, rest) = look_part_of(alloc, kind, rest)?;
            Ok((Some(look), rest))
        }
    }
}

/// Reads the parts of a multiRead, up to the end.
#[tactic(auto, unfolding(crate::specs::Parts::looks))]
pub(crate) fn looks_of(alloc: Global, bytes: &[u8]) -> Result<(Looks, &[u8]), ReadError>
    ensures { Gives (λ x. (x.0, x.1.now)) result (looks.read bytes.now) }
{
    let mut looks = Vec::new(alloc);
    let mut rest = bytes;
    for _ in 0..bytes.len() {
        let (look, after) = look_or_end_of(alloc, rest)?;
        match look {
            None => return Ok((Looks::new(looks), after)),
            Some(look) => looks.push(look)?,
        }
        rest = after;
    }
    Err(ReadError::Fault(Fault::Short))
}
