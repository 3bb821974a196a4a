//! Calls that change the tree, read from the front of bytes with what follows them.

ghost use Rattle.std.specs.Prelude.{◌≡◌, ◌≤◌, length, IfOk};
ghost use Rattle.zcalls.specs.declared.limits.TheConstants.{MOST_PARTS};
ghost use Rattle.zcodec.specs.Forms.{times};
ghost use Rattle.zcodec.specs.Readers.{Reads, Gives};
ghost use Rattle.zwire.specs.records.Calls.{create, delete, set_data, set_acl, check, part_at, part, parts_from};
ghost use Rattle.zwire.specs.records.Calls.{parts, update_at, update};

use crate::records::field_reading::{content_of, kind_in, path_of, version_in};
use std::alloc::Global;
use zcalls::{Check, Create, Delete, MOST_PARTS, Multi, Part, SessionId, SetAcl, SetData, Update};
use zcodec::{Fault, ReadError, u8_at, u32_at, u64_at};

// Reads a create.
#[tactic(auto, unfolding(crate::specs::records::Calls::create))]
fn create_of(alloc: Global, bytes: &[u8]) -> Result<(Create, &[u8]), ReadError>
    ensures { Gives (λ x. (x.0, x.1.now)) result (create.read bytes.now) }
{
    let (path, rest) = path_of(alloc, bytes)?;
    let (kind, rest) = match kind_in(rest) {
        Ok(read) => read,
        Err(fault) => return Err(ReadError::Fault(fault)),
    };
    let (content, rest) = content_of(alloc, rest)?;
    let create = Create {
        path,
        kind,
        bytes: content,
    };
    Ok((create, rest))
}

// Reads a delete.
#[tactic(auto, unfolding(crate::specs::records::Calls::delete))]
fn delete_of(alloc: Global, bytes: &[u8]) -> Result<(Delete, &[u8]), ReadError>
    ensures { Gives (λ x. (x.0, x.1.now)) result (delete.read bytes.now) }
{
    let (path, rest) = path_of(alloc, bytes)?;
    let (version, rest) = version_in(rest)?;
    Ok((Delete { path, version }, rest))
}

// Reads a set.
#[tactic(auto, unfolding(crate::specs::records::Calls::set_data))]
fn set_data_of(alloc: Global, bytes: &[u8]) -> Result<(SetData, &[u8]), ReadError>
    ensures { Gives (λ x. (x.0, x.1.now)) result (set_data.read bytes.now) }
{
    let (path, rest) = path_of(alloc, bytes)?;
    let (version, rest) = version_in(rest)?;
    let (content, rest) = content_of(alloc, rest)?;
    let set = SetData {
        path,
        bytes: content,
        version,
    };
    Ok((set, rest))
}

// Reads a write of an access control list.
#[tactic(auto, unfolding(crate::specs::records::Calls::set_acl))]
fn set_acl_of(alloc: Global, bytes: &[u8]) -> Result<(SetAcl, &[u8]), ReadError>
    ensures { Gives (λ x. (x.0, x.1.now)) result (set_acl.read bytes.now) }
{
    let (path, rest) = path_of(alloc, bytes)?;
    let (version, rest) = version_in(rest)?;
    Ok((SetAcl { path, version }, rest))
}

// Reads a check.
#[tactic(auto, unfolding(crate::specs::records::Calls::check))]
fn check_of(alloc: Global, bytes: &[u8]) -> Result<(Check, &[u8]), ReadError>
    ensures { Gives (λ x. (x.0, x.1.now)) result (check.read bytes.now) }
{
    let (path, rest) = path_of(alloc, bytes)?;
    let (version, rest) = version_in(rest)?;
    Ok((Check { path, version }, rest))
}

// Reads a part of a multi.
#[tactic(auto, unfolding(crate::specs::records::Calls::part))]
fn part_of(alloc: Global, bytes: &[u8]) -> Result<(Part, &[u8]), ReadError>
    ensures { Gives (λ x. (x.0, x.1.now)) result (part.read bytes.now) }
{
    let (tag, rest) = u8_at(bytes)?;
    part_behind(alloc, tag, rest)
}

// The value read, as one of this kind.
macro_rules! a {
    ($kind:path, $read:expr) => {
        match $read {
            Ok((it, rest)) => Ok(($kind(it), rest)),
            Err(error) => Err(error),
        }
    };
}

// Reads what follows the tag of a part.
#[tactic(auto, unfolding(crate::specs::records::Calls::part_at))]
fn part_behind(alloc: Global, tag: u8, bytes: &[u8]) -> Result<(Part, &[u8]), ReadError>
    ensures { Gives (λ x. (x.0, x.1.now)) result (part_at tag bytes.now) }
{
    match tag {
        0 => a!(Part::Create, create_of(alloc, bytes)),
        1 => a!(Part::Delete, delete_of(alloc, bytes)),
        2 => a!(Part::SetData, set_data_of(alloc, bytes)),
        3 => a!(Part::Check, check_of(alloc, bytes)),
        _ => Err(ReadError::Fault(Fault::Invalid)),
    }
}

// Reads the parts of a multi.
#[tactic(auto, unfolding(crate::specs::records::Calls::parts))]
fn multi_of(alloc: Global, bytes: &[u8]) -> Result<(Multi, &[u8]), ReadError>
    ensures { Gives (λ x. (x.0, x.1.now)) result (parts.read bytes.now) }
{
    let (count, rest) = u32_at(bytes)?;
    if count > MOST_PARTS as u32 {
        return Err(ReadError::Fault(Fault::Long));
    }
    let (parts, rest) = counted_parts(alloc, count, rest)?;
    let multi = multi_with(parts)?;
    Ok((multi, rest))
}

// Reads that many parts.
fn counted_parts(alloc: Global, count: u32, bytes: &[u8]) -> Result<(Vec<Part>, &[u8]), ReadError>
    requires { count ≤ MOST_PARTS }
    ensures parts { Gives (λ x. (x.0.items, x.1.now)) result ((times part count).read bytes.now) }
    ensures few { IfOk result (λ x. length x.0.items ≤ MOST_PARTS) }
{
    let mut parts = Vec::new(alloc);
    let mut rest = bytes;
    for _ in 0..count {
        let (part, after) = part_of(alloc, rest)?;
        parts.push(part)?;
        rest = after;
    }
    Ok((parts, rest))
}

// Returns the multi of these parts.
fn multi_with(parts: Vec<Part>) -> Result<Multi, Fault>
    requires { length parts.items ≤ MOST_PARTS }
    ensures { Reads (λ it. it) result (parts_from parts.items) }
{
    match Multi::within(parts, MOST_PARTS) {
        Ok(multi) => Ok(multi),
        Err(_) => Err(Fault::Invalid),
    }
}

/// Reads a change.
#[tactic(auto, unfolding(crate::specs::records::Calls::update))]
pub fn update_of(alloc: Global, bytes: &[u8]) -> Result<(Update, &[u8]), ReadError>
    ensures { Gives (λ x. (x.0, x.1.now)) result (update.read bytes.now) }
{
    let (tag, rest) = u8_at(bytes)?;
    update_behind(alloc, tag, rest)
}

// Reads what follows the tag of a change.
#[tactic(auto, unfolding(crate::specs::records::Calls::update_at))]
fn update_behind(alloc: Global, tag: u8, bytes: &[u8]) -> Result<(Update, &[u8]), ReadError>
    ensures { Gives (λ x. (x.0, x.1.now)) result (update_at tag bytes.now) }
{
    match tag {
        0 => a!(Update::Create, create_of(alloc, bytes)),
        1 => a!(Update::Delete, delete_of(alloc, bytes)),
        2 => a!(Update::SetData, set_data_of(alloc, bytes)),
        3 => a!(Update::Multi, multi_of(alloc, bytes)),
        4 => {
            let (ticks, rest) = u64_at(bytes)?;
            Ok((Update::Open(ticks), rest))
        }
        5 => {
            let (session, rest) = u64_at(bytes)?;
            Ok((Update::Ping(SessionId::new(session)), rest))
        }
        6 => {
            let (session, rest) = u64_at(bytes)?;
            Ok((Update::Close(SessionId::new(session)), rest))
        }
        7 => Ok((Update::Tick, bytes)),
        8 => a!(Update::SetAcl, set_acl_of(alloc, bytes)),
        _ => Err(ReadError::Fault(Fault::Invalid)),
    }
}
