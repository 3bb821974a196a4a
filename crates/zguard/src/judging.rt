//! What a frame of a stranger brings.
//!
//! # Why
//!
//! A request is refused by its head, as by ZooKeeper, whatever follows. So no more is stored of a
//! stranger than `MAX_KEPT` bytes. The refusal has the zxid 0, as ZooKeeper's has.

ghost use Rattle.std.specs.Prelude.{◌≡◌, IfOk};
ghost use Rattle.zguard.specs.Judging as table;
ghost use Rattle.zguard.specs.Judging.{gives_login, head_of, judged, refusal, verdict_of};

use crate::limits::{AUTH, MAX_KEPT};
use crate::verdict::Verdict;
use std::alloc::Global;
use zalloc::Memory;
use zjute::{
    Asked, Auth, Body, Bytes, Code, Next, ReadError, Reply, WriteError, next_frame, read_request,
    write_reply,
};
use zlogins::Logins;

/// Judges a stranger by the bytes behind its connect request.
pub(crate) fn judge(alloc: Global, logins: &Logins, came: &[u8]) -> Result<Verdict, Memory>
    ensures { IfOk result (λ verdict. verdict_of verdict ≡ judged logins.now came.now) }
{
    match next_frame(came) {
        Next::Whole(frame, _) => judge_frame(alloc, logins, frame),
        Next::Partial => judge_part(alloc, came),
        Next::TooLong => Ok(Verdict::Refuses(Vec::new(alloc))),
    }
}

// Judges a stranger by a frame.
fn judge_frame(alloc: Global, logins: &Logins, frame: &[u8]) -> Result<Verdict, Memory>
    ensures { IfOk result (λ verdict. verdict_of verdict ≡ table.frame_judged logins.now frame.now) }
{
    match head_of(frame) {
        Some((_, AUTH)) => judge_auth(alloc, logins, frame),
        Some((xid, _)) => refuse(alloc, xid, Code::SessionClosedRequireSaslAuth),
        None => Ok(Verdict::Refuses(Vec::new(alloc))),
    }
}

// Judges a stranger by a part of a frame.
fn judge_part(alloc: Global, came: &[u8]) -> Result<Verdict, Memory>
    ensures { IfOk result (λ verdict. verdict_of verdict ≡ table.part_judged came.now) }
{
    let Some((_, part)) = came.split_first_chunk::<4>() else {
        return Ok(Verdict::Waits);
    };
    match head_of(part) {
        Some((_, AUTH)) if came.len() > MAX_KEPT => Ok(Verdict::Refuses(Vec::new(alloc))),
        Some((_, AUTH)) | None => Ok(Verdict::Waits),
        Some((xid, _)) => refuse(alloc, xid, Code::SessionClosedRequireSaslAuth),
    }
}

// Judges a stranger by an auth. Invalid bytes have no answer.
fn judge_auth(alloc: Global, logins: &Logins, frame: &[u8]) -> Result<Verdict, Memory>
    ensures { IfOk result (λ verdict. verdict_of verdict ≡ table.auth_judged logins.now frame.now) }
{
    let request = match read_request(alloc, frame) {
        Ok(request) => request,
        Err(ReadError::Fault(_)) => return Ok(Verdict::Refuses(Vec::new(alloc))),
        Err(ReadError::Memory) => return Err(Memory),
    };
    let verdict = judge_asked(alloc, logins, request.xid, &request.asked);
    drop(request);
    verdict
}

// Judges a stranger by a request with this xid.
fn judge_asked(alloc: Global, logins: &Logins, xid: i32, asked: &Asked) -> Result<Verdict, Memory>
    ensures { IfOk result (λ verdict.
        verdict_of verdict ≡ table.asked_judged logins.now xid asked.now) }
{
    let Asked::Auth(auth) = asked else {
        return Ok(Verdict::Refuses(Vec::new(alloc)));
    };
    if gives_login(alloc, logins, auth)? {
        return Ok(Verdict::Admits);
    }
    refuse(alloc, xid, Code::AuthFailed)
}

// Returns whether an auth gives a login.
fn gives_login(alloc: Global, logins: &Logins, auth: &Auth) -> Result<bool, Memory>
    ensures { IfOk result (λ gives. gives ≡ gives_login logins.now auth.now) }
{
    match (&auth.scheme, &auth.auth) {
        (Some(scheme), Some(given)) if is_digest(scheme) => logins.has(alloc, given.as_slice()),
        _ => Ok(false),
    }
}

// Returns whether a scheme is `digest`.
fn is_digest(scheme: &Bytes) -> bool
    ensures { result ≡ table.is_digest scheme.now }
{
    scheme.as_slice() == b"digest".as_slice()
}

// Refuses a stranger by the answer with this code to the request with this xid.
fn refuse(alloc: Global, xid: i32, code: Code) -> Result<Verdict, Memory>
    ensures { IfOk result (λ verdict. verdict_of verdict ≡ table.Refuses (refusal xid code)) }
{
    let reply = Reply {
        xid,
        zxid: 0,
        code,
        body: Body::Nothing,
    };
    match write_reply(alloc, &reply) {
        Ok(bytes) => Ok(Verdict::Refuses(bytes)),
        Err(WriteError::Memory) => Err(Memory),
        // A bare header is short.
        Err(WriteError::TooLong) => unreachable!(),
    }
}

// Returns the xid and the kind of a request, the two numbers at the front of its frame.
#[tactic(auto, unfolding(zjute::specs::Jute::int, zcodec::specs::Forms::number_at))]
fn head_of(frame: &[u8]) -> Option<(i32, i32)>
    ensures { result ≡ head_of frame.now }
{
    let (xid, rest) = frame.split_first_chunk::<4>()?;
    let (kind, _) = rest.split_first_chunk::<4>()?;
    Some((i32::from_be_bytes(*xid), i32::from_be_bytes(*kind)))
}
