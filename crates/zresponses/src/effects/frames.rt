//! Answers as frames.
//!
//! # Why
//!
//! AuthFailed closes the connection, as in ZooKeeper. A client whose identity is refused has
//! nothing more to ask for.

ghost use Rattle.std.specs.Prelude.{◌≡◌, IfOk};
ghost use Rattle.zresponses.specs.effects.Frames as table;
ghost use Rattle.zresponses.specs.effects.Frames.{answer_text, too_long};
ghost use Rattle.zjute.specs.Frames.{frame};

use crate::Answer;
use std::alloc::Global;
use zalloc::Memory;
use zjute::{
    Body, Bytes, Code, ConnectRequest, ConnectResponse, WriteError, write_connect_response,
    write_reply,
};
use zpasswords::Password;

/// Returns whether an answer with this code closes the connection.
pub(crate) fn ends_connection(code: Code) -> bool
    ensures { result ≡ table.ends_connection code }
{
    matches!(code, Code::AuthFailed)
}

/// Returns an answer as a frame, with this zxid in its header. One that no frame can hold is replaced by an error.
pub(crate) fn answer_frame(
    alloc: Global,
    zxid: i64,
    xid: i32,
    answer: Answer,
) -> Result<Vec<u8>, Memory>
    ensures { IfOk result (λ bytes. bytes.items ≡ table.answer_frame zxid xid answer) }
{
    let Answer { code, body } = answer;
    let reported = zjute::Reply {
        xid,
        zxid,
        code,
        body,
    };
    match write_reply(alloc, &reported) {
        Ok(bytes) => Ok(bytes),
        Err(WriteError::Memory) => Err(Memory),
        Err(WriteError::TooLong) => too_long_frame(alloc, zxid, xid),
    }
}

// Returns the error for an answer that no frame can hold.
fn too_long_frame(alloc: Global, zxid: i64, xid: i32) -> Result<Vec<u8>, Memory>
    ensures { IfOk result (λ bytes. bytes.items ≡ frame (answer_text zxid xid too_long)) }
{
    let reported = zjute::Reply {
        xid,
        zxid,
        code: Code::MarshallingError,
        body: Body::Nothing,
    };
    match write_reply(alloc, &reported) {
        Ok(bytes) => Ok(bytes),
        Err(WriteError::Memory) => Err(Memory),
        // A bare header is short.
        Err(WriteError::TooLong) => unreachable!(),
    }
}

/// Returns the connect response as a frame.
pub(crate) fn response_frame(
    alloc: Global,
    request: &ConnectRequest,
    timeout: i32,
    session_id: i64,
    password: &Password,
) -> Result<Vec<u8>, Memory>
    ensures { IfOk result (λ bytes. bytes.items
        ≡ table.response_frame request.now timeout session_id password.now) }
{
    let reported = ConnectResponse {
        protocol_version: 0,
        timeout,
        session_id,
        password: Bytes::copied(alloc, password.as_bytes())?,
        read_only: reported_flag(request),
    };
    match write_connect_response(alloc, &reported) {
        Ok(bytes) => Ok(bytes),
        Err(WriteError::Memory) => Err(Memory),
        // A password is short.
        Err(WriteError::TooLong) => unreachable!(),
    }
}

// Returns that the server isn't read-only, to a client that knows the flag.
fn reported_flag(request: &ConnectRequest) -> Option<bool>
    ensures { result ≡ table.flag_reported request.now }
{
    match request.read_only {
        Some(_) => Some(false),
        None => None,
    }
}
