//! The first frame of a connection, and its answer.

use crate::bytes::Bytes;

/// A client's first frame (`ConnectRequest` of zookeeper.jute).
#[derive(Drop)]
pub struct ConnectRequest {
    /// The version of the protocol; clients send 0.
    pub protocol_version: i32,
    /// The last zxid that the client has seen.
    pub last_zxid_seen: i64,
    /// The requested session timeout, in milliseconds.
    pub timeout: i32,
    /// The client's previous session, or 0.
    pub session_id: i64,
    /// The password of that session; `None` is a null buffer.
    pub password: Option<Bytes>,
    /// Whether the client accepts a read-only server. Clients before 3.4 leave this byte out.
    pub read_only: Option<bool>,
}

/// The answer (`ConnectResponse` of zookeeper.jute).
#[derive(Drop)]
pub struct ConnectResponse {
    /// The version of the protocol; servers send 0.
    pub protocol_version: i32,
    /// The granted session timeout, in milliseconds; 0 if there is no session.
    pub timeout: i32,
    /// The session, or 0 if there is no session.
    pub session_id: i64,
    /// Its password.
    pub password: Bytes,
    /// Whether the server is read-only; sent only if the client's request had that byte.
    pub read_only: Option<bool>,
}
