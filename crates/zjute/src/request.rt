//! The requests of a client.

use crate::acl::Acls;
use crate::bytes::{Bytes, Texts};
use crate::part::{Looks, Parts};

/// A node to create (`CreateRequest` of zookeeper.jute).
#[derive(Drop)]
pub struct CreateRequest {
    /// Its path; without the counter for a sequential node. `None` is a null string.
    pub path: Option<Bytes>,
    /// Its data; `None` is a null buffer.
    pub bytes: Option<Bytes>,
    /// Its ACL; `None` is a null list.
    pub acls: Option<Acls>,
    /// The kind of node, by its number (`CreateMode`).
    pub flags: i32,
}

/// A node to create with a TTL (`CreateTTLRequest` of zookeeper.jute).
#[derive(Drop)]
pub struct CreateTtl {
    /// The fields before the TTL.
    pub create: CreateRequest,
    /// The TTL in milliseconds.
    pub ttl: i64,
}

/// A node and its expected version; -1 is any version (`DeleteRequest` and `CheckVersionRequest` of
/// zookeeper.jute).
#[derive(Drop)]
pub struct AtVersion {
    /// The path of the node; `None` is a null string.
    pub path: Option<Bytes>,
    /// The expected version, or -1 for any.
    pub version: i32,
}

/// A node to read, and whether to set a watch (`ExistsRequest`, `GetDataRequest`,
/// `GetChildrenRequest` and `GetChildren2Request` of zookeeper.jute).
#[derive(Drop)]
pub struct Look {
    /// The path of the node; `None` is a null string.
    pub path: Option<Bytes>,
    /// Whether to set a watch.
    pub watch: bool,
}

/// A node and its new data (`SetDataRequest` of zookeeper.jute).
#[derive(Drop)]
pub struct SetDataRequest {
    /// The path of the node; `None` is a null string.
    pub path: Option<Bytes>,
    /// Its new data; `None` is a null buffer.
    pub bytes: Option<Bytes>,
    /// The expected version, or -1 for any.
    pub version: i32,
}

/// A node and its new ACL (`SetACLRequest` of zookeeper.jute).
#[derive(Drop)]
pub struct SetAclRequest {
    /// The path of the node; `None` is a null string.
    pub path: Option<Bytes>,
    /// Its new ACL; `None` is a null list.
    pub acls: Option<Acls>,
    /// The expected version of the ACL, or -1 for any.
    pub version: i32,
}

/// Watches of a node (`CheckWatchesRequest` and `RemoveWatchesRequest` of zookeeper.jute).
#[derive(Drop)]
pub struct WatchesAt {
    /// The path of the node; `None` is a null string.
    pub path: Option<Bytes>,
    /// The kind of watch, by its number (`Watcher.WatcherType`).
    pub kind: i32,
}

/// A watch to add (`AddWatchRequest` of zookeeper.jute).
#[derive(Drop)]
pub struct AddWatch {
    /// The path of the node; `None` is a null string.
    pub path: Option<Bytes>,
    /// The mode of the watch, by its number (`AddWatchMode`).
    pub mode: i32,
}

/// A client's credentials (`AuthPacket` of zookeeper.jute).
#[derive(Drop)]
pub struct Auth {
    /// A number that clients send as 0.
    pub kind: i32,
    /// The scheme, such as `digest`; `None` is a null string.
    pub scheme: Option<Bytes>,
    /// The credentials in that scheme; `None` is a null buffer.
    pub auth: Option<Bytes>,
}

/// The watches that a client had before it reconnected (`SetWatches` of zookeeper.jute).
#[derive(Drop)]
pub struct SetWatches {
    /// The last zxid that the client has seen.
    pub relative_zxid: i64,
    /// The paths with a data watch.
    pub data_watches: Texts,
    /// The paths with a watch for their creation.
    pub exist_watches: Texts,
    /// The paths with a watch of their children.
    pub child_watches: Texts,
}

/// The same, with persistent watches (`SetWatches2` of zookeeper.jute).
#[derive(Drop)]
pub struct SetWatches2 {
    /// The fields before the persistent watches.
    pub watches: SetWatches,
    /// The paths with a persistent watch.
    pub persistent_watches: Texts,
    /// The paths with a persistent recursive watch.
    pub recursive_watches: Texts,
}

/// The record of a request. Its number (`ZooDefs.OpCode`) is given with each variant.
#[derive(Drop)]
pub enum Asked {
    /// 1: create a node, and return its path.
    Create(CreateRequest),
    /// 2: delete a node.
    Delete(AtVersion),
    /// 3: read whether a node exists.
    Exists(Look),
    /// 4: get the data of a node.
    GetData(Look),
    /// 5: write the data of a node.
    SetData(SetDataRequest),
    /// 6: get the ACL of a node, by its path (`GetACLRequest`).
    GetAcl(Option<Bytes>),
    /// 7: write the ACL of a node.
    SetAcl(SetAclRequest),
    /// 8: get the names of a node's children.
    GetChildren(Look),
    /// 9: catch up with the leader, by a path (`SyncRequest`).
    Sync(Option<Bytes>),
    /// 11: ping, to renew the session.
    Ping,
    /// 12: get the names of a node's children, and its stat.
    GetChildren2(Look),
    /// 13: check the version of a node.
    Check(AtVersion),
    /// 14: do all parts, or no part (`MultiTransactionRecord`).
    Multi(Parts),
    /// 15: create a node, and return its path and stat.
    Create2(CreateRequest),
    /// 17: check that there is a watch.
    CheckWatches(WatchesAt),
    /// 18: remove watches.
    RemoveWatches(WatchesAt),
    /// 19: create a container, and return its path and stat.
    CreateContainer(CreateRequest),
    /// 21: create a node with a TTL.
    CreateTtl(CreateTtl),
    /// 22: read several nodes.
    MultiRead(Looks),
    /// 100: authenticate the client.
    Auth(Auth),
    /// 101: set the watches of the previous connection again.
    SetWatches(SetWatches),
    /// 102: a token of SASL, which isn't null (`GetSASLRequest`).
    Sasl(Bytes),
    /// 103: get the paths of the session's ephemeral nodes that begin with a text
    /// (`GetEphemeralsRequest`).
    GetEphemerals(Option<Bytes>),
    /// 104: count the nodes below a path (`GetAllChildrenNumberRequest`).
    GetAllChildrenNumber(Option<Bytes>),
    /// 105: the same as 101, with persistent watches.
    SetWatches2(SetWatches2),
    /// 106: add a persistent watch.
    AddWatch(AddWatch),
    /// 107: who the client is.
    WhoAmI,
    /// -11: end the session.
    CloseSession,
    /// Any other number, with the remaining bytes as they are.
    Other(i32, Bytes),
}

/// A request (`RequestHeader` of zookeeper.jute, and what follows it).
#[derive(Drop)]
pub struct Request {
    /// The number by which the client matches the reply.
    pub xid: i32,
    /// The kind of the request, with its record.
    pub asked: Asked,
}
