//! Headers, sessions and cached replies, read from the front of bytes with what follows them.

ghost use Rattle.zcodec.specs.Readers.{Reads, Gives};
ghost use Rattle.zsnapshots.specs.Rows.{totals, limits, header_text, session, session_text, kept_of};
ghost use Rattle.zsnapshots.specs.Rows.{reply_text};

use crate::header::Header;
use std::alloc::Global;
use zcalls::{CallNumber, Reply};
use zcodec::{Fault, ReadError, u32_at, u64_at};
use ztree::{ClientId, Session, SessionId, TreeLimits, Zxid};
use zwire::{call_number_at, client_at, log_number_at, reply_of, three_at};

/// Reads a header.
#[tactic(auto, unfolding(crate::specs::Rows::header_text))]
pub(crate) fn header_text_at(bytes: &[u8]) -> Result<(Header, &[u8]), Fault>
    ensures { Reads (λ x. (x.0, x.1.now)) result (header_text.read bytes.now) }
{
    let (last, rest) = match log_number_at(bytes) {
        Ok(read) => read,
        Err(fault) => return Err(fault),
    };
    let (time, rest) = u64_at(rest)?;
    let (zxid, rest) = u64_at(rest)?;
    let (limits, rest) = match limits_at(rest) {
        Ok(read) => read,
        Err(fault) => return Err(fault),
    };
    let (sessions, nodes, replies, rest) = totals_at(rest)?;
    let header = Header {
        last,
        time,
        zxid: Zxid::new(zxid),
        limits,
        sessions,
        nodes,
        replies,
    };
    Ok((header, rest))
}

// Reads the limits of a tree.
#[tactic(auto, unfolding(crate::specs::Rows::limits))]
fn limits_at(bytes: &[u8]) -> Result<(TreeLimits, &[u8]), Fault>
    ensures { Reads (λ x. (x.0, x.1.now)) result (limits.read bytes.now) }
{
    let (nodes, sessions, timeout, rest) = three_at(bytes)?;
    let limits = TreeLimits {
        nodes: nodes as usize,
        sessions: sessions as usize,
        timeout,
    };
    Ok((limits, rest))
}

// Reads how many rows of each kind follow.
fn totals_at(bytes: &[u8]) -> Result<(u32, u32, u32, &[u8]), Fault>
    ensures { Reads (λ x. ((x.0, (x.1, x.2)), x.3.now)) result (totals.read bytes.now) }
{
    let (sessions, rest) = u32_at(bytes)?;
    let (nodes, rest) = u32_at(rest)?;
    let (replies, rest) = u32_at(rest)?;
    Ok((sessions, nodes, replies, rest))
}

/// Reads a session with its id.
#[tactic(auto, unfolding(crate::specs::Rows::session_text))]
pub(crate) fn session_text_at(bytes: &[u8]) -> Result<(SessionId, Session, &[u8]), Fault>
    ensures { Reads (λ x. ((x.0, x.1), x.2.now)) result (session_text.read bytes.now) }
{
    let (id, rest) = u64_at(bytes)?;
    match session_at(rest) {
        Ok((session, rest)) => Ok((SessionId::new(id), session, rest)),
        Err(fault) => Err(fault),
    }
}

// Reads a session.
#[tactic(auto, unfolding(crate::specs::Rows::session))]
fn session_at(bytes: &[u8]) -> Result<(Session, &[u8]), Fault>
    ensures { Reads (λ x. (x.0, x.1.now)) result (session.read bytes.now) }
{
    let (client, rest) = match client_at(bytes) {
        Ok(read) => read,
        Err(fault) => return Err(fault),
    };
    let (timeout, rest) = u64_at(rest)?;
    let (deadline, rest) = u64_at(rest)?;
    let session = Session {
        client,
        timeout,
        deadline,
    };
    Ok((session, rest))
}

/// Reads a cached reply, after its client and the number of the client's call.
#[tactic(auto, unfolding(crate::specs::Rows::reply_text, crate::specs::Rows::kept))]
pub(crate) fn reply_text_of(
    alloc: Global,
    bytes: &[u8],
) -> Result<(ClientId, CallNumber, Reply, &[u8]), ReadError>
    ensures { Gives (λ x. ((x.0, kept_of x.1 x.2), x.3.now)) result (reply_text.read bytes.now) }
{
    let (client, rest) = match client_at(bytes) {
        Ok(read) => read,
        Err(fault) => return Err(ReadError::Fault(fault)),
    };
    let (number, rest) = match call_number_at(rest) {
        Ok(read) => read,
        Err(fault) => return Err(ReadError::Fault(fault)),
    };
    let (reply, rest) = reply_of(alloc, rest)?;
    Ok((client, number, reply, rest))
}
