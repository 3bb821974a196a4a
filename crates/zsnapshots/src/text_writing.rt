//! Headers, sessions and cached replies, written at the end of bytes. Each function says too that
//! what it writes fits.

ghost use Rattle.std.specs.Prelude.{◌≡◌, ◌++◌, OnOk};
ghost use Rattle.zcodec.specs.Forms.{both};
ghost use Rattle.zwire.specs.records.Fields.{long};
ghost use Rattle.zsnapshots.specs.Rows.{clocks, limits as limits_form, totals, header_text};
ghost use Rattle.zsnapshots.specs.Rows.{session as session_form, session_text, kept_of};
ghost use Rattle.zsnapshots.specs.Rows.{reply_text};

use crate::header::Header;
use std::alloc::{AllocError, Global};
use zcalls::{CallNumber, Reply};
use zcodec::{put_u32, put_u64};
use zprotocol::LogNumber;
use ztree::{ClientId, Session, SessionId, TreeLimits, Zxid};
use zwire::{put_call_number, put_client, put_log_number, put_reply};

/// Writes a header.
#[tactic(auto, unfolding(crate::specs::Rows::header_text))]
pub(crate) fn put_header_text(out: &mut Vec<u8>, header: Header) -> Result<(), AllocError>
    ensures text { OnOk result (out.new.items ≡ out.old.items ++ header_text.spell header) }
    ensures fits { OnOk result (header_text.Fits header) }
{
    put_clocks(out, header.last, header.time, header.zxid)?;
    put_limits(out, header.limits)?;
    put_totals(out, header.sessions, header.nodes, header.replies)
}

// Writes the last entry's number, the time and the zxid.
fn put_clocks(out: &mut Vec<u8>, last: LogNumber, time: u64, zxid: Zxid) -> Result<(), AllocError>
    ensures text { OnOk result
        (out.new.items ≡ out.old.items ++ clocks.spell (last, (time, zxid))) }
    ensures fits { OnOk result (clocks.Fits (last, (time, zxid))) }
{
    put_log_number(out, last)?;
    put_two(out, time, zxid.number())
}

// Writes the limits of a tree.
#[tactic(auto, unfolding(crate::specs::Rows::limits))]
fn put_limits(out: &mut Vec<u8>, limits: TreeLimits) -> Result<(), AllocError>
    ensures text { OnOk result (out.new.items ≡ out.old.items ++ limits_form.spell limits) }
    ensures fits { OnOk result (limits_form.Fits limits) }
{
    put_u64(out, limits.nodes as u64)?;
    put_two(out, limits.sessions as u64, limits.timeout)
}

// Writes how many rows of each kind follow.
fn put_totals(out: &mut Vec<u8>, sessions: u32, nodes: u32, replies: u32) -> Result<(), AllocError>
    ensures text { OnOk result
        (out.new.items ≡ out.old.items ++ totals.spell (sessions, (nodes, replies))) }
    ensures fits { OnOk result (totals.Fits (sessions, (nodes, replies))) }
{
    put_u32(out, sessions)?;
    put_u32(out, nodes)?;
    put_u32(out, replies)
}

// Writes two numbers.
fn put_two(out: &mut Vec<u8>, first: u64, second: u64) -> Result<(), AllocError>
    ensures text { OnOk result
        (out.new.items ≡ out.old.items ++ (both long long).spell (first, second)) }
    ensures fits { OnOk result ((both long long).Fits (first, second)) }
{
    put_u64(out, first)?;
    put_u64(out, second)
}

/// Writes a session with its id.
#[tactic(auto, unfolding(crate::specs::Rows::session_text))]
pub(crate) fn put_session_text(
    out: &mut Vec<u8>,
    id: SessionId,
    session: Session,
) -> Result<(), AllocError>
    ensures text { OnOk result (out.new.items ≡ out.old.items ++ session_text.spell (id, session)) }
    ensures fits { OnOk result (session_text.Fits (id, session)) }
{
    put_u64(out, id.number())?;
    put_session(out, session)
}

// Writes a session.
#[tactic(auto, unfolding(crate::specs::Rows::session))]
fn put_session(out: &mut Vec<u8>, session: Session) -> Result<(), AllocError>
    ensures text { OnOk result (out.new.items ≡ out.old.items ++ session_form.spell session) }
    ensures fits { OnOk result (session_form.Fits session) }
{
    put_client(out, session.client)?;
    put_two(out, session.timeout, session.deadline)
}

/// Writes a cached reply, after its client and the number of the client's call.
#[tactic(auto, unfolding(crate::specs::Rows::reply_text, crate::specs::Rows::kept))]
pub(crate) fn put_reply_text(
    alloc: Global,
    out: &mut Vec<u8>,
    client: ClientId,
    number: CallNumber,
    reply: &Reply,
) -> Result<(), AllocError>
    ensures text { OnOk result (out.new.items
        ≡ out.old.items ++ reply_text.spell (client, kept_of number reply.now)) }
    ensures fits { OnOk result (reply_text.Fits (client, kept_of number reply.now)) }
{
    put_client(out, client)?;
    put_call_number(out, number)?;
    put_reply(alloc, out, reply)
}
