//! Rows, read from the front of bytes with what follows them.

ghost use Rattle.std.specs.Prelude.{◌≡◌, Ok, IfOk, IfErr};
ghost use Rattle.zcodec.specs.Readers.{Reads, Gives, whole};
ghost use Rattle.zwire.specs.Frames.{IsFaultOf};
ghost use Rattle.zsnapshots.specs.Rows.{header_text, session_text, node_text, kept_of, reply_text};
ghost use Rattle.zsnapshots.specs.Rows.{row, IsReadAs};

use crate::header::Header;
use crate::node_reading::node_text_of;
use crate::text_reading::{header_text_at, reply_text_of, session_text_at};
use std::alloc::Global;
use zcalls::{CallNumber, Reply};
use zcodec::{Fault, ReadError, end};
use zpath::Path;
use ztree::{ClientId, Node, Session, SessionId};
use zwire::{FrameFault, cut_frame, whole_of};

/// Reads the header of a snapshot at the front of the bytes, with what follows it.
pub fn read_header_row(bytes: &[u8]) -> Result<(Header, &[u8]), FrameFault>
    ensures { IsReadAs header_text (λ x. (x.0, x.1.now)) result bytes.now }
{
    header_row_in(bytes)
}

// The same, by the definition of reading alone.
fn header_row_in(bytes: &[u8]) -> Result<(Header, &[u8]), FrameFault>
    ensures read { IfOk result (λ x. (row header_text).read bytes.now ≡ Ok (x.0, x.1.now)) }
    ensures fault { IfErr result (IsFaultOf header_text bytes.now) }
{
    let (text, rest) = cut_frame(bytes)?;
    match whole_header(text) {
        Ok(header) => Ok((header, rest)),
        Err(fault) => Err(FrameFault::Contents(fault)),
    }
}

// Reads the header that all of the bytes spell.
fn whole_header(bytes: &[u8]) -> Result<Header, Fault>
    ensures { Reads (λ it. it) result (whole header_text bytes.now) }
{
    match header_text_at(bytes) {
        Ok((header, rest)) => {
            end(rest)?;
            Ok(header)
        }
        Err(fault) => Err(fault),
    }
}

/// Reads the session at the front of the bytes, with what follows it.
pub fn read_session_row(bytes: &[u8]) -> Result<(SessionId, Session, &[u8]), FrameFault>
    ensures { IsReadAs session_text (λ x. ((x.0, x.1), x.2.now)) result bytes.now }
{
    session_row_in(bytes)
}

// The same, by the definition of reading alone.
fn session_row_in(bytes: &[u8]) -> Result<(SessionId, Session, &[u8]), FrameFault>
    ensures read { IfOk result (λ x. (row session_text).read bytes.now ≡ Ok ((x.0, x.1), x.2.now)) }
    ensures fault { IfErr result (IsFaultOf session_text bytes.now) }
{
    let (text, rest) = cut_frame(bytes)?;
    match whole_session(text) {
        Ok((id, session)) => Ok((id, session, rest)),
        Err(fault) => Err(FrameFault::Contents(fault)),
    }
}

// Reads the session, with its id, that all of the bytes spell.
fn whole_session(bytes: &[u8]) -> Result<(SessionId, Session), Fault>
    ensures { Reads (λ x. (x.0, x.1)) result (whole session_text bytes.now) }
{
    match session_text_at(bytes) {
        Ok((id, session, rest)) => {
            end(rest)?;
            Ok((id, session))
        }
        Err(fault) => Err(fault),
    }
}

/// Reads the node at the front of the bytes, with what follows it.
pub fn read_node_row(alloc: Global, bytes: &[u8]) -> Result<(Path, Node, &[u8]), FrameFault>
    ensures { IsReadAs node_text (λ x. ((x.0, x.1), x.2.now)) result bytes.now }
{
    node_row_in(alloc, bytes)
}

// The same, by the definition of reading alone.
fn node_row_in(alloc: Global, bytes: &[u8]) -> Result<(Path, Node, &[u8]), FrameFault>
    ensures read { IfOk result (λ x. (row node_text).read bytes.now ≡ Ok ((x.0, x.1), x.2.now)) }
    ensures fault { IfErr result (IsFaultOf node_text bytes.now) }
{
    let (text, rest) = cut_frame(bytes)?;
    match whole_node(alloc, text) {
        Ok((path, node)) => Ok((path, node, rest)),
        Err(ReadError::Fault(fault)) => Err(FrameFault::Contents(fault)),
        Err(ReadError::Memory) => Err(FrameFault::Memory),
    }
}

// Reads the node, with its path, that all of the bytes spell.
fn whole_node(alloc: Global, bytes: &[u8]) -> Result<(Path, Node), ReadError>
    ensures { Gives (λ x. (x.0, x.1)) result (whole node_text bytes.now) }
{
    match node_text_of(alloc, bytes) {
        Ok((path, node, rest)) => whole_of((path, node), rest),
        Err(error) => Err(error),
    }
}

/// Reads the cached reply at the front of the bytes, with what follows it.
pub fn read_reply_row(
    alloc: Global,
    bytes: &[u8],
) -> Result<(ClientId, CallNumber, Reply, &[u8]), FrameFault>
    ensures { IsReadAs reply_text (λ x. ((x.0, kept_of x.1 x.2), x.3.now)) result bytes.now }
{
    reply_row_in(alloc, bytes)
}

// The same, by the definition of reading alone.
fn reply_row_in(
    alloc: Global,
    bytes: &[u8],
) -> Result<(ClientId, CallNumber, Reply, &[u8]), FrameFault>
    ensures read { IfOk result (λ x. (row reply_text).read bytes.now
        ≡ Ok ((x.0, kept_of x.1 x.2), x.3.now)) }
    ensures fault { IfErr result (IsFaultOf reply_text bytes.now) }
{
    let (text, rest) = cut_frame(bytes)?;
    match whole_reply(alloc, text) {
        Ok((client, number, reply)) => Ok((client, number, reply, rest)),
        Err(ReadError::Fault(fault)) => Err(FrameFault::Contents(fault)),
        Err(ReadError::Memory) => Err(FrameFault::Memory),
    }
}

// Reads the cached reply, with its client and number, that all of the bytes spell.
fn whole_reply(alloc: Global, bytes: &[u8]) -> Result<(ClientId, CallNumber, Reply), ReadError>
    ensures { Gives (λ x. (x.0, kept_of x.1 x.2)) result (whole reply_text bytes.now) }
{
    match reply_text_of(alloc, bytes) {
        Ok((client, number, reply, rest)) => {
            let reply = whole_of(reply, rest)?;
            Ok((client, number, reply))
        }
        Err(error) => Err(error),
    }
}
