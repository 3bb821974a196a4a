//! The encoding of ZooKeeper's client protocol (jute): frames are read as requests, and replies and
//! events are written as frames.
//!
//! Consumes the bytes received on a connection: `next_frame` cuts off a frame, `read_connect` reads
//! the first one and `read_request` each later one. Produces whole frames:
//! `write_connect_response`, `write_reply` and `write_event`.
//!
//! The forms are in `specs/`, each with a comment that names its record of zookeeper.jute. A
//! request that was read has the read bytes as its encoding. Each request has one encoding, and a
//! valid one is read unless memory runs out.
#![tactic(auto)]

mod acl;
mod bytes;
mod code;
mod connect_reading;
mod connecting;
mod event;
mod fault;
mod field_reading;
mod field_writing;
mod frames;
pub mod laws;
mod limits;
mod list_reading;
mod list_writing;
mod op;
mod part;
mod part_kind;
mod part_reading;
mod reading;
mod record_reading;
mod reply;
mod request;
mod result_writing;
mod rows;
mod stat;
mod watch_numbers;
mod watch_type;
mod writing;

pub use acl::{Acl, Acls};
pub use bytes::{Bytes, Texts};
pub use code::Code;
pub use connect_reading::read_connect;
pub use connecting::{ConnectRequest, ConnectResponse};
pub use event::{EventKind, KeeperState, WatcherEvent};
pub use fault::WriteError;
pub use frames::{Next, next_frame};
pub use limits::MAX_FRAME;
pub use part::{LookPart, Looks, PartRequest, Parts};
pub use reading::read_request;
pub use reply::{Body, PartResult, Reply, Results};
pub use request::{
    AddWatch, Asked, AtVersion, Auth, CreateRequest, CreateTtl, Look, Request, SetAclRequest,
    SetDataRequest, SetWatches, SetWatches2, WatchesAt,
};
pub use stat::StatRecord;
pub use watch_type::{AddMode, WatchType};
pub use writing::{write_connect_response, write_event, write_reply};
pub use zcodec::{Fault, ReadError};
