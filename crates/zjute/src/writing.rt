//! Writers of frames: replies, events and the response to the first frame.

ghost use Rattle.std.specs.Prelude.{◌≡◌, ◌++◌, ◌<◌, ◌≤◌, length, OnOk, IfOk, IfErr};
ghost use Rattle.zjute.specs.declared.fault.WriteError.TheVariants.{TooLong};
ghost use Rattle.zjute.specs.Frames.{frame};
ghost use Rattle.zjute.specs.Connecting.{connect_response, last_flag};
ghost use Rattle.zjute.specs.Replies.{header_text, body_text, reply_text};
ghost use Rattle.zjute.specs.Events.{watcher_event, event_text};

use crate::code::Code;
use crate::connecting::ConnectResponse;
use crate::event::WatcherEvent;
use crate::fault::WriteError;
use crate::field_writing::{put_buffer, put_int, put_long, put_stat, put_text};
use crate::limits::MAX_FRAME;
use crate::list_writing::{put_acls, put_texts};
use crate::reply::{Body, Reply};
use crate::result_writing::put_results;
use std::alloc::{AllocError, Global};
use zcodec::{put_flag, put_u32};

/// Returns a reply as a whole frame, with its length first.
///
/// Returns `WriteError::TooLong` if it would have more than `MAX_FRAME` bytes.
pub fn write_reply(alloc: Global, reply: &Reply) -> Result<Vec<u8>, WriteError>
    ensures frame { IfOk result (λ bytes. bytes.items ≡ frame (reply_text reply.now)) }
    ensures short { OnOk result (length (reply_text reply.now) ≤ MAX_FRAME) }
    ensures long { IfErr result
        (λ error. error ≡ TooLong → MAX_FRAME < length (reply_text reply.now)) }
{
    let mut body = Vec::new(alloc);
    put_reply(&mut body, reply)?;
    framed(alloc, &body)
}

/// Returns an event as a whole frame. The header has the xid -1, and this zxid.
pub fn write_event(alloc: Global, zxid: i64, event: &WatcherEvent) -> Result<Vec<u8>, WriteError>
    ensures frame { IfOk result (λ bytes. bytes.items ≡ frame (event_text zxid event.now)) }
    ensures short { OnOk result (length (event_text zxid event.now) ≤ MAX_FRAME) }
    ensures long { IfErr result
        (λ error. error ≡ TooLong → MAX_FRAME < length (event_text zxid event.now)) }
{
    let mut body = Vec::new(alloc);
    put_event(&mut body, &zxid, event)?;
    framed(alloc, &body)
}

/// Returns the response to a connection's first frame as a whole frame.
pub fn write_connect_response(
    alloc: Global,
    response: &ConnectResponse,
) -> Result<Vec<u8>, WriteError>
    ensures frame { IfOk result
        (λ bytes. bytes.items ≡ frame (connect_response.spell response.now)) }
    ensures short { OnOk result (length (connect_response.spell response.now) ≤ MAX_FRAME) }
    ensures long { IfErr result
        (λ error. error ≡ TooLong → MAX_FRAME < length (connect_response.spell response.now)) }
{
    let mut body = Vec::new(alloc);
    put_connect_response(&mut body, response)?;
    framed(alloc, &body)
}

// Returns these bytes as a frame: their length, and then the bytes.
fn framed(alloc: Global, body: &[u8]) -> Result<Vec<u8>, WriteError>
    ensures frame { IfOk result (λ bytes. bytes.items ≡ frame body.now) }
    ensures short { OnOk result (length body.now ≤ MAX_FRAME) }
    ensures long { IfErr result (λ error. error ≡ TooLong → MAX_FRAME < length body.now) }
{
    if body.len() > MAX_FRAME as usize {
        return Err(WriteError::TooLong);
    }
    let mut out = Vec::with_capacity(alloc, body.len() + 4)?;
    put_u32(&mut out, body.len() as u32)?;
    out.extend_from_slice(body)?;
    Ok(out)
}

// Writes a reply.
#[tactic(auto, unfolding(crate::specs::Replies::reply_text))]
fn put_reply(out: &mut Vec<u8>, reply: &Reply) -> Result<(), AllocError>
    ensures { OnOk result (out.new.items ≡ out.old.items ++ reply_text reply.now) }
{
    put_header(out, &reply.xid, &reply.zxid, reply.code)?;
    put_body(out, &reply.body)
}

// Writes a `ReplyHeader`.
fn put_header(out: &mut Vec<u8>, xid: &i32, zxid: &i64, code: Code) -> Result<(), AllocError>
    ensures { OnOk result (out.new.items ≡ out.old.items ++ header_text xid.now zxid.now code) }
{
    put_int(out, xid)?;
    put_long(out, zxid)?;
    put_int(out, &code.number())
}

// Writes the record after a reply's header.
fn put_body(out: &mut Vec<u8>, body: &Body) -> Result<(), AllocError>
    ensures { OnOk result (out.new.items ≡ out.old.items ++ body_text body.now) }
{
    match body {
        Body::Nothing => Ok(()),
        Body::Error(code) => put_int(out, &code.number()),
        Body::Path(path) => put_text(out, path),
        Body::PathStat(path, stat) => {
            put_text(out, path)?;
            put_stat(out, stat)
        }
        Body::Stat(stat) => put_stat(out, stat),
        Body::DataStat(bytes, stat) => {
            put_buffer(out, bytes)?;
            put_stat(out, stat)
        }
        Body::Names(names) => put_texts(out, names),
        Body::NamesStat(names, stat) => {
            put_texts(out, names)?;
            put_stat(out, stat)
        }
        Body::AclsStat(acls, stat) => {
            put_acls(out, acls)?;
            put_stat(out, stat)
        }
        Body::Number(number) => put_int(out, number),
        Body::Client(scheme, id) => {
            put_int(out, &1)?;
            put_text(out, scheme)?;
            put_text(out, id)
        }
        Body::NoToken => put_buffer(out, &None),
        Body::Results(results) => put_results(out, results),
    }
}

// Writes an event after its header.
#[tactic(auto, unfolding(crate::specs::Events::event_text))]
fn put_event(out: &mut Vec<u8>, zxid: &i64, event: &WatcherEvent) -> Result<(), AllocError>
    ensures { OnOk result (out.new.items ≡ out.old.items ++ event_text zxid.now event.now) }
{
    put_header(out, &-1, zxid, Code::Ok)?;
    put_watcher_event(out, event)
}

// Writes a `WatcherEvent`.
fn put_watcher_event(out: &mut Vec<u8>, event: &WatcherEvent) -> Result<(), AllocError>
    ensures { OnOk result (out.new.items ≡ out.old.items ++ watcher_event event.now) }
{
    put_int(out, &event.kind.number())?;
    put_int(out, &event.state.number())?;
    put_text(out, &event.path)
}

// Writes a `ConnectResponse`.
#[tactic(auto, unfolding(crate::specs::Connecting::connect_response))]
fn put_connect_response(out: &mut Vec<u8>, response: &ConnectResponse) -> Result<(), AllocError>
    ensures { OnOk result (out.new.items ≡ out.old.items ++ connect_response.spell response.now) }
{
    put_int(out, &response.protocol_version)?;
    put_int(out, &response.timeout)?;
    put_long(out, &response.session_id)?;
    put_text(out, &response.password)?;
    put_last_flag(out, response.read_only)
}

// Writes the last flag, if there is one.
fn put_last_flag(out: &mut Vec<u8>, flag: Option<bool>) -> Result<(), AllocError>
    ensures { OnOk result (out.new.items ≡ out.old.items ++ last_flag.spell flag) }
{
    match flag {
        Some(flag) => put_flag(out, flag),
        None => Ok(()),
    }
}
