//! Names, and the lists in replies, read from the front of bytes with what follows them.
//!
//! # Why
//! A name is read as that of a node below another, since names come from parsed paths. `zookeeper`
//! is no name at the root, but is one below it.

ghost use Rattle.zcodec.specs.Forms.{times};
ghost use Rattle.zcodec.specs.Readers.{Gives};
ghost use Rattle.zwire.specs.Fields.{name_from, second_from, name};
ghost use Rattle.zwire.specs.Replies.{part_reply_at, part_reply, replies, names};

use crate::field_reading::stat_at;
use crate::records::{path_of, path_with};
use std::alloc::Global;
use zcalls::{Names, PartReply, Replies};
use zcodec::{Fault, ReadError, sized_at, u8_at, u64_at};
use zpath::{MAX_NAME_LEN, Name};

/// Reads the names of a node's children.
#[tactic(auto, unfolding(crate::specs::Replies::names))]
pub(crate) fn names_of(alloc: Global, bytes: &[u8]) -> Result<(Names, &[u8]), ReadError>
    ensures { Gives (λ x. (x.0, x.1.now)) result (names.read bytes.now) }
{
    let (count, rest) = u64_at(bytes)?;
    let (names, rest) = counted_names(alloc, count, rest)?;
    Ok((Names::new(names), rest))
}

// Reads that many names.
fn counted_names(alloc: Global, count: u64, bytes: &[u8]) -> Result<(Vec<Name>, &[u8]), ReadError>
    ensures { Gives (λ x. (x.0.items, x.1.now)) result ((times name count).read bytes.now) }
{
    let mut names = Vec::new(alloc);
    let mut rest = bytes;
    for _ in 0..count {
        let (name, after) = name_of(alloc, rest)?;
        names.push(name)?;
        rest = after;
    }
    Ok((names, rest))
}

// Reads a name.
#[tactic(auto, unfolding(crate::specs::Fields::name))]
fn name_of(alloc: Global, bytes: &[u8]) -> Result<(Name, &[u8]), ReadError>
    ensures { Gives (λ x. (x.0, x.1.now)) result (name.read bytes.now) }
{
    let (text, rest) = sized_at(MAX_NAME_LEN as u32, bytes)?;
    let name = name_with(alloc, text)?;
    Ok((name, rest))
}

// Returns the name with this text: that of a node below another, since names come from paths.
fn name_with(alloc: Global, text: &[u8]) -> Result<Name, ReadError>
    ensures { Gives (λ it. it) result (name_from text.now) }
{
    let mut child = Vec::from_slice(alloc, b"/-/")?;
    child.extend_from_slice(text)?;
    let path = path_with(alloc, &child)?;
    last_of_two(alloc, path.names())
}

// Returns the second of two names.
fn last_of_two(alloc: Global, names: &[Name]) -> Result<Name, ReadError>
    ensures { Gives (λ it. it) result (second_from names.now) }
{
    let [_, name] = names else {
        return Err(ReadError::Fault(Fault::Invalid));
    };
    match name.clone() {
        Ok(name) => Ok(name),
        Err(_) => Err(ReadError::Memory),
    }
}

/// Reads the replies to the parts of a multi.
#[tactic(auto, unfolding(crate::specs::Replies::replies))]
pub(crate) fn replies_of(alloc: Global, bytes: &[u8]) -> Result<(Replies, &[u8]), ReadError>
    ensures { Gives (λ x. (x.0, x.1.now)) result (replies.read bytes.now) }
{
    let (count, rest) = u64_at(bytes)?;
    let (replies, rest) = counted_replies(alloc, count, rest)?;
    Ok((Replies::new(replies), rest))
}

// Reads that many of them.
fn counted_replies(
    alloc: Global,
    count: u64,
    bytes: &[u8],
) -> Result<(Vec<PartReply>, &[u8]), ReadError>
    ensures { Gives (λ x. (x.0.items, x.1.now)) result ((times part_reply count).read bytes.now) }
{
    let mut replies = Vec::new(alloc);
    let mut rest = bytes;
    for _ in 0..count {
        let (reply, after) = part_reply_of(alloc, rest)?;
        replies.push(reply)?;
        rest = after;
    }
    Ok((replies, rest))
}

// Reads the reply to a part.
#[tactic(auto, unfolding(crate::specs::Replies::part_reply))]
fn part_reply_of(alloc: Global, bytes: &[u8]) -> Result<(PartReply, &[u8]), ReadError>
    ensures { Gives (λ x. (x.0, x.1.now)) result (part_reply.read bytes.now) }
{
    let (tag, rest) = u8_at(bytes)?;
    part_reply_behind(alloc, tag, rest)
}

// Reads what follows its tag.
#[tactic(auto, unfolding(crate::specs::Replies::part_reply_at))]
fn part_reply_behind(alloc: Global, tag: u8, bytes: &[u8]) -> Result<(PartReply, &[u8]), ReadError>
    ensures { Gives (λ x. (x.0, x.1.now)) result (part_reply_at tag bytes.now) }
{
    match tag {
        0 => {
            let (path, rest) = path_of(alloc, bytes)?;
            Ok((PartReply::Created(path), rest))
        }
        1 => Ok((PartReply::Deleted, bytes)),
        2 => match stat_at(bytes) {
            Ok((stat, rest)) => Ok((PartReply::Set(stat), rest)),
            Err(fault) => Err(ReadError::Fault(fault)),
        }
        3 => Ok((PartReply::Checked, bytes)),
        _ => Err(ReadError::Fault(Fault::Invalid)),
    }
}
