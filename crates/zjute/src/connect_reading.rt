//! Reads the first frame of a connection.

ghost use Rattle.std.specs.Prelude.{◌≡◌, IfOk, Ok};
ghost use Rattle.zcodec.specs.Readers.{Reads, Gives, whole};
ghost use Rattle.zjute.specs.Connecting.{last_flag, connect_request};

use crate::connecting::ConnectRequest;
use crate::field_reading::{buffer_of, int_at, long_at, whole_of};
use std::alloc::Global;
use zcodec::{Fault, ReadError, flag_at};

/// Reads all bytes of a connection's first frame.
///
/// `ReadError::Fault` is the leftmost fault; the caller should then close the connection.
/// `ReadError::Memory` says nothing about the bytes.
pub fn read_connect(alloc: Global, bytes: &[u8]) -> Result<ConnectRequest, ReadError>
    // What was read has these bytes as its encoding.
    ensures found { IfOk result (λ request. connect_request.Fits request
        × (bytes.now ≡ connect_request.spell request)) }
    // A valid encoding is read, unless memory runs out.
    ensures only { (request : ConnectRequest) → connect_request.Fits request
        → bytes.now ≡ connect_request.spell request → Gives (λ it. it) result (Ok request) }
    // The fault is the leftmost one.
    ensures exact { Gives (λ it. it) result (whole connect_request bytes.now) }
{
    all_of(alloc, bytes)
}

// The same, stated by the form's reading alone.
fn all_of(alloc: Global, bytes: &[u8]) -> Result<ConnectRequest, ReadError>
    ensures { Gives (λ it. it) result (whole connect_request bytes.now) }
{
    let (request, rest) = request_of(alloc, bytes)?;
    whole_of(request, rest)
}

// Reads a `ConnectRequest`, and returns it with the rest.
#[tactic(auto, unfolding(crate::specs::Connecting::connect_request))]
fn request_of(alloc: Global, bytes: &[u8]) -> Result<(ConnectRequest, &[u8]), ReadError>
    ensures { Gives (λ x. (x.0, x.1.now)) result (connect_request.read bytes.now) }
{
    let (protocol_version, rest) = int_at(bytes)?;
    let (last_zxid_seen, rest) = long_at(rest)?;
    let (timeout, rest) = int_at(rest)?;
    let (session_id, rest) = long_at(rest)?;
    let (password, rest) = buffer_of(alloc, rest)?;
    let (read_only, rest) = last_flag_at(rest)?;
    let request = ConnectRequest {
        protocol_version,
        last_zxid_seen,
        timeout,
        session_id,
        password,
        read_only,
    };
    Ok((request, rest))
}

// Reads the last flag, which clients before 3.4 leave out.
fn last_flag_at(bytes: &[u8]) -> Result<(Option<bool>, &[u8]), Fault>
    ensures { Reads (λ x. (x.0, x.1.now)) result (last_flag.read bytes.now) }
{
    if bytes.is_empty() {
        return Ok((None, bytes));
    }
    let (flag, rest) = flag_at(bytes)?;
    Ok((Some(flag), rest))
}
