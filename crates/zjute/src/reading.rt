//! Readers of requests.

ghost use Rattle.std.specs.Prelude.{◌≡◌, IfOk, Ok};
ghost use Rattle.zcodec.specs.Readers.{Gives, whole};
ghost use Rattle.zjute.specs.Asking.{asked_at, asked, request};

use crate::field_reading::{buffer_of, int_at, left_of, text_of, whole_of};
use crate::op::Op;
use crate::part_reading::{looks_of, parts_of};
use crate::record_reading::{
    add_watch_of, at_version_of, auth_of, create_of, create_ttl_of, look_of, set_acl_of,
    set_data_of, set_watches_2_of, set_watches_of, watches_at_of,
};
use crate::request::{Asked, Request};
use std::alloc::Global;
use zcodec::ReadError;

/// Reads all bytes of a frame as a request. An unknown kind isn't a fault: it is read as
/// `Asked::Other`.
///
/// `ReadError::Fault` is the leftmost fault; the caller should then close the connection.
/// `ReadError::Memory` says nothing about the bytes.
pub fn read_request(alloc: Global, bytes: &[u8]) -> Result<Request, ReadError>
    // What was read has these bytes as its encoding.
    ensures found { IfOk result (λ it. request.Fits it × (bytes.now ≡ request.spell it)) }
    // A valid encoding is read, unless memory runs out.
    ensures only { (it : Request) → request.Fits it → bytes.now ≡ request.spell it
        → Gives (λ it. it) result (Ok it) }
    // The fault is the leftmost one.
    ensures exact { Gives (λ it. it) result (whole request bytes.now) }
{
    all_of(alloc, bytes)
}

// The same, stated by the form's reading alone.
fn all_of(alloc: Global, bytes: &[u8]) -> Result<Request, ReadError>
    ensures { Gives (λ it. it) result (whole request bytes.now) }
{
    let (request, rest) = request_of(alloc, bytes)?;
    whole_of(request, rest)
}

// Reads a request, and returns it with the rest.
#[tactic(auto, unfolding(crate::specs::Asking::request))]
fn request_of(alloc: Global, bytes: &[u8]) -> Result<(Request, &[u8]), ReadError>
    ensures { Gives (λ x. (x.0, x.1.now)) result (request.read bytes.now) }
{
    let (xid, rest) = int_at(bytes)?;
    let (asked, rest) = asked_of(alloc, rest)?;
    Ok((Request { xid, asked }, rest))
}

// Reads the number of a kind, and the request's record.
#[tactic(auto, unfolding(crate::specs::Asking::asked))]
fn asked_of(alloc: Global, bytes: &[u8]) -> Result<(Asked, &[u8]), ReadError>
    ensures { Gives (λ x. (x.0, x.1.now)) result (asked.read bytes.now) }
{
    let (number, rest) = int_at(bytes)?;
    case_of(alloc, Op::of(number), rest)
}

// Returns the result of reading as a request of this kind.
macro_rules! asks {
    ($kind:ident, $read:expr) => {
        match $read {
            Ok((it, rest)) => Ok((Asked::$kind(it), rest)),
            Err(error) => Err(error),
        }
    };
}

// Reads the record of a request of this kind.
#[tactic(auto, unfolding(crate::specs::Asking::asked_at))]
fn case_of(alloc: Global, op: Op, bytes: &[u8]) -> Result<(Asked, &[u8]), ReadError>
    ensures { Gives (λ x. (x.0, x.1.now)) result (asked_at op bytes.now) }
{
    match op {
        Op::Create => asks!(Create, create_of(alloc, bytes)),
        Op::Delete => asks!(Delete, at_version_of(alloc, bytes)),
        Op::Exists => asks!(Exists, look_of(alloc, bytes)),
        Op::GetData => asks!(GetData, look_of(alloc, bytes)),
        Op::SetData => asks!(SetData, set_data_of(alloc, bytes)),
        Op::GetAcl => asks!(GetAcl, buffer_of(alloc, bytes)),
        Op::SetAcl => asks!(SetAcl, set_acl_of(alloc, bytes)),
        Op::GetChildren => asks!(GetChildren, look_of(alloc, bytes)),
        Op::Sync => asks!(Sync, buffer_of(alloc, bytes)),
        Op::Ping => Ok((Asked::Ping, bytes)),
        Op::GetChildren2 => asks!(GetChildren2, look_of(alloc, bytes)),
        Op::Check => asks!(Check, at_version_of(alloc, bytes)),
        Op::Multi => asks!(Multi, parts_of(alloc, bytes)),
        Op::Create2 => asks!(Create2, create_of(alloc, bytes)),
        Op::CheckWatches => asks!(CheckWatches, watches_at_of(alloc, bytes)),
        Op::RemoveWatches => asks!(RemoveWatches, watches_at_of(alloc, bytes)),
        Op::CreateContainer => asks!(CreateContainer, create_of(alloc, bytes)),
        Op::CreateTtl => asks!(CreateTtl, create_ttl_of(alloc, bytes)),
        Op::MultiRead => asks!(MultiRead, looks_of(alloc, bytes)),
        Op::Auth => asks!(Auth, auth_of(alloc, bytes)),
        Op::SetWatches => asks!(SetWatches, set_watches_of(alloc, bytes)),
        Op::Sasl => asks!(Sasl, text_of(alloc, bytes)),
        Op::GetEphemerals => asks!(GetEphemerals, buffer_of(alloc, bytes)),
        Op::GetAllChildrenNumber => asks!(GetAllChildrenNumber, buffer_of(alloc, bytes)),
        Op::SetWatches2 => asks!(SetWatches2, set_watches_2_of(alloc, bytes)),
        Op::AddWatch => asks!(AddWatch, add_watch_of(alloc, bytes)),
        Op::WhoAmI => Ok((Asked::WhoAmI, bytes)),
        Op::CloseSession => Ok((Asked::CloseSession, bytes)),
        Op::Other(number) => match left_of(alloc, bytes) {
            Ok((it, rest)) => Ok((Asked::Other(number, it), rest)),
            Err(error) => Err(error),
        }
    }
}
