//! Queries and replies, read from the front of bytes with what follows them.

ghost use Rattle.zcodec.specs.Readers.{Gives};
ghost use Rattle.zcalls.specs.declared.reply.Reply.TheVariants as reported;
ghost use Rattle.zjute.specs.Shapes.{read_as};
ghost use Rattle.zwire.specs.Replies.{query_at, query, opened, ticked, data_stat, refused_part};
ghost use Rattle.zwire.specs.Replies.{reply_at, other_reply_at, reply};

use crate::field_reading::{refusal_in, stat_at};
use crate::list_reading::{names_of, replies_of};
use crate::records::{content_of, path_of};
use std::alloc::Global;
use zcalls::{Query, Reply, SessionId};
use zcodec::{Fault, ReadError, u8_at, u64_at};

/// Reads a query.
#[tactic(auto, unfolding(crate::specs::Replies::query))]
pub(crate) fn query_of(alloc: Global, bytes: &[u8]) -> Result<(Query, &[u8]), ReadError>
    ensures { Gives (λ x. (x.0, x.1.now)) result (query.read bytes.now) }
{
    let (tag, rest) = u8_at(bytes)?;
    query_behind(alloc, tag, rest)
}

// The value read, as one of this kind.
macro_rules! a {
    ($kind:path, $read:expr) => {
        match $read {
            Ok((it, rest)) => Ok(($kind(it), rest)),
            Err(error) => Err(error),
        }
    };
}

// The same, where reading needs no memory.
macro_rules! plain {
    ($kind:path, $read:expr) => {
        match $read {
            Ok((it, rest)) => Ok(($kind(it), rest)),
            Err(fault) => Err(ReadError::Fault(fault)),
        }
    };
}

// Reads what follows the tag of a query.
#[tactic(auto, unfolding(crate::specs::Replies::query_at))]
fn query_behind(alloc: Global, tag: u8, bytes: &[u8]) -> Result<(Query, &[u8]), ReadError>
    ensures { Gives (λ x. (x.0, x.1.now)) result (query_at tag bytes.now) }
{
    match tag {
        0 => a!(Query::GetData, path_of(alloc, bytes)),
        1 => a!(Query::Exists, path_of(alloc, bytes)),
        2 => a!(Query::GetChildren, path_of(alloc, bytes)),
        _ => Err(ReadError::Fault(Fault::Invalid)),
    }
}

/// Reads a reply.
#[tactic(auto, unfolding(crate::specs::Replies::reply))]
pub fn reply_of(alloc: Global, bytes: &[u8]) -> Result<(Reply, &[u8]), ReadError>
    ensures { Gives (λ x. (x.0, x.1.now)) result (reply.read bytes.now) }
{
    let (tag, rest) = u8_at(bytes)?;
    reply_behind(alloc, tag, rest)
}

// Reads what follows the tag of a reply.
#[tactic(auto, unfolding(crate::specs::Replies::reply_at))]
fn reply_behind(alloc: Global, tag: u8, bytes: &[u8]) -> Result<(Reply, &[u8]), ReadError>
    ensures { Gives (λ x. (x.0, x.1.now)) result (reply_at tag bytes.now) }
{
    match tag {
        0 => a!(Reply::Created, path_of(alloc, bytes)),
        1 => Ok((Reply::Deleted, bytes)),
        2 => plain!(Reply::Set, stat_at(bytes)),
        3 => a!(Reply::Multi, replies_of(alloc, bytes)),
        4 => opened_of(bytes),
        5 => Ok((Reply::Pinged, bytes)),
        6 => Ok((Reply::Closed, bytes)),
        7 => ticked_of(bytes),
        _ => other_reply_behind(alloc, tag, bytes),
    }
}

// Reads what follows the tag of an answer to a query, or of a refusal.
#[tactic(auto, unfolding(crate::specs::Replies::other_reply_at))]
fn other_reply_behind(alloc: Global, tag: u8, bytes: &[u8]) -> Result<(Reply, &[u8]), ReadError>
    ensures { Gives (λ x. (x.0, x.1.now)) result (other_reply_at tag bytes.now) }
{
    match tag {
        8 => data_of(alloc, bytes),
        9 => plain!(Reply::Exists, stat_at(bytes)),
        10 => a!(Reply::Children, names_of(alloc, bytes)),
        11 => plain!(Reply::Refused, refusal_in(bytes)),
        12 => refused_part_of(bytes),
        _ => Err(ReadError::Fault(Fault::Invalid)),
    }
}

// Reads a session's id and its timeout.
fn opened_of(bytes: &[u8]) -> Result<(Reply, &[u8]), ReadError>
    ensures { Gives (λ x. (x.0, x.1.now)) result
        (read_as opened (λ o. reported.Opened o.0 o.1) bytes.now) }
{
    let (id, rest) = u64_at(bytes)?;
    let (timeout, rest) = u64_at(rest)?;
    Ok((Reply::Opened(SessionId::new(id), timeout), rest))
}

// Reads a tick, the number of sessions that it ended, and that of the nodes that it removed.
fn ticked_of(bytes: &[u8]) -> Result<(Reply, &[u8]), ReadError>
    ensures { Gives (λ x. (x.0, x.1.now)) result
        (read_as ticked (λ t. reported.Ticked t.0 t.1.0 t.1.1) bytes.now) }
{
    let (tick, rest) = u64_at(bytes)?;
    let (ended, rest) = u64_at(rest)?;
    let (removed, rest) = u64_at(rest)?;
    Ok((Reply::Ticked(tick, ended as usize, removed as usize), rest))
}

// Reads data and a stat.
fn data_of(alloc: Global, bytes: &[u8]) -> Result<(Reply, &[u8]), ReadError>
    ensures { Gives (λ x. (x.0, x.1.now)) result
        (read_as data_stat (λ d. reported.Data d.0 d.1) bytes.now) }
{
    let (content, rest) = content_of(alloc, bytes)?;
    match stat_at(rest) {
        Ok((stat, rest)) => Ok((Reply::Data(content, stat), rest)),
        Err(fault) => Err(ReadError::Fault(fault)),
    }
}

// Reads the number of a part, and why it was refused.
fn refused_part_of(bytes: &[u8]) -> Result<(Reply, &[u8]), ReadError>
    ensures { Gives (λ x. (x.0, x.1.now)) result
        (read_as refused_part (λ r. reported.MultiRefused r.0 r.1) bytes.now) }
{
    let (number, rest) = u64_at(bytes)?;
    match refusal_in(rest) {
        Ok((refusal, rest)) => Ok((Reply::MultiRefused(number as usize, refusal), rest)),
        Err(fault) => Err(ReadError::Fault(fault)),
    }
}
