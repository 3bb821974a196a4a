//! Queries and replies, written at the end of bytes. Each function says too that what it writes
//! fits.

ghost use Rattle.std.specs.Prelude.{◌≡◌, ◌++◌, OnOk};
ghost use Rattle.zwire.specs.Replies.{query as query_form, ticked, data_stat, refused_part};
ghost use Rattle.zwire.specs.Replies.{opened, reply_spelled, reply as reply_form};

use crate::field_writing::{put_refusal, put_stat};
use crate::list_writing::{put_names, put_replies};
use crate::records::{put_content, put_path};
use std::alloc::{AllocError, Global};
use zcalls::{Data, Query, Refusal, Reply, SessionId, Stat};
use zcodec::{put_u8, put_u64};

/// Writes a query.
#[tactic(auto, unfolding(crate::specs::Replies::query))]
pub(crate) fn put_query(alloc: Global, out: &mut Vec<u8>, query: &Query) -> Result<(), AllocError>
    ensures text { OnOk result (out.new.items ≡ out.old.items ++ query_form.spell query.now) }
    ensures fits { OnOk result (query_form.Fits query.now) }
{
    match query {
        Query::GetData(path) => {
            put_u8(out, 0)?;
            put_path(alloc, out, path)
        }
        Query::Exists(path) => {
            put_u8(out, 1)?;
            put_path(alloc, out, path)
        }
        Query::GetChildren(path) => {
            put_u8(out, 2)?;
            put_path(alloc, out, path)
        }
    }
}

/// Writes a reply.
#[tactic(auto, unfolding(crate::specs::Replies::reply))]
pub fn put_reply(alloc: Global, out: &mut Vec<u8>, reply: &Reply) -> Result<(), AllocError>
    ensures text { OnOk result (out.new.items ≡ out.old.items ++ reply_form.spell reply.now) }
    ensures fits { OnOk result (reply_form.Fits reply.now) }
{
    put_u8(out, tag_of(reply))?;
    put_fields(alloc, out, reply)
}

// Returns the tag of a reply.
fn tag_of(reply: &Reply) -> u8
    ensures { result ≡ (reply_spelled reply.now).tag }
{
    match reply {
        Reply::Created(_) => 0,
        Reply::Deleted => 1,
        Reply::Set(_) => 2,
        Reply::Multi(_) => 3,
        Reply::Opened(_, _) => 4,
        Reply::Pinged => 5,
        Reply::Closed => 6,
        Reply::Ticked(_, _, _) => 7,
        Reply::Data(_, _) => 8,
        Reply::Exists(_) => 9,
        Reply::Children(_) => 10,
        Reply::Refused(_) => 11,
        Reply::MultiRefused(_, _) => 12,
    }
}

// Writes what follows the tag of a reply.
fn put_fields(alloc: Global, out: &mut Vec<u8>, reply: &Reply) -> Result<(), AllocError>
    ensures text { OnOk result
        (out.new.items ≡ out.old.items ++ (reply_spelled reply.now).text) }
    ensures fits { OnOk result (reply_spelled reply.now).fits }
{
    match reply {
        Reply::Created(path) => put_path(alloc, out, path),
        Reply::Set(stat) | Reply::Exists(stat) => put_stat(out, stat),
        Reply::Multi(replies) => put_replies(alloc, out, replies),
        Reply::Opened(id, timeout) => put_opened(out, *id, *timeout),
        Reply::Deleted | Reply::Pinged | Reply::Closed => Ok(()),
        Reply::Ticked(tick, ended, removed) => put_ticked(out, *tick, *ended, *removed),
        Reply::Data(content, stat) => put_data(out, content, stat),
        Reply::Children(names) => put_names(out, names),
        Reply::Refused(refusal) => put_refusal(out, *refusal),
        Reply::MultiRefused(number, refusal) => put_refused_part(out, *number, *refusal),
    }
}

// Writes a session's id and its timeout.
fn put_opened(out: &mut Vec<u8>, id: SessionId, timeout: u64) -> Result<(), AllocError>
    ensures text { OnOk result (out.new.items ≡ out.old.items ++ opened.spell (id, timeout)) }
    ensures fits { OnOk result (opened.Fits (id, timeout)) }
{
    put_u64(out, id.number())?;
    put_u64(out, timeout)
}

// Writes a tick, the number of sessions that it ended, and that of the nodes that it removed.
fn put_ticked(out: &mut Vec<u8>, tick: u64, ended: usize, removed: usize) -> Result<(), AllocError>
    ensures text { OnOk result
        (out.new.items ≡ out.old.items ++ ticked.spell (tick, (ended, removed))) }
    ensures fits { OnOk result (ticked.Fits (tick, (ended, removed))) }
{
    put_u64(out, tick)?;
    put_u64(out, ended as u64)?;
    put_u64(out, removed as u64)
}

// Writes data and a stat.
fn put_data(out: &mut Vec<u8>, content: &Data, stat: &Stat) -> Result<(), AllocError>
    ensures text { OnOk result
        (out.new.items ≡ out.old.items ++ data_stat.spell (content.now, stat.now)) }
    ensures fits { OnOk result (data_stat.Fits (content.now, stat.now)) }
{
    put_content(out, content)?;
    put_stat(out, stat)
}

// Writes the number of a part, and why it was refused.
fn put_refused_part(out: &mut Vec<u8>, number: usize, refusal: Refusal) -> Result<(), AllocError>
    ensures text { OnOk result
        (out.new.items ≡ out.old.items ++ refused_part.spell (number, refusal)) }
    ensures fits { OnOk result (refused_part.Fits (number, refusal)) }
{
    put_u64(out, number as u64)?;
    put_refusal(out, refusal)
}
