//! The calls of the service.

use crate::call_number::CallNumber;
use crate::multi::Multi;
use zpath::Path;
use ztree::{ClientId, Data, SessionId, Term, Ttl};

/// The lifetime of a created node.
#[derive(Clone, Copy, Debug, PartialEq, Eq)]
pub enum Lifetime {
    /// Persistent: the node stays until it is deleted.
    Persistent,
    /// Persistent with a TTL. A tick removes the node once the TTL since the last write of its data
    /// has passed, if it has no children.
    WithTtl(Ttl),
    /// Ephemeral: the session with this id owns the node, which is removed when the session ends.
    Ephemeral(SessionId),
    /// Persistent, as a container. A tick removes the node once it has had children and has none.
    Container,
}

impl Lifetime {
    ghost use Rattle.std.specs.Prelude.{◌≡◌};
    ghost use Rattle.zcalls.specs.Part.{owner_of, term_of};

    /// Returns the id of the session that will own the node, or 0 for none.
    pub fn owner(self) -> u64
        ensures { result ≡ owner_of self }
    {
        match self {
            Lifetime::Persistent | Lifetime::WithTtl(_) | Lifetime::Container => 0,
            Lifetime::Ephemeral(session) => session.number(),
        }
    }

    /// Returns the term of the node: what a tick may remove it for.
    pub fn term(self) -> Term
        ensures { result ≡ term_of self }
    {
        match self {
            Lifetime::Persistent | Lifetime::Ephemeral(_) => Term::Unlimited,
            Lifetime::WithTtl(ttl) => Term::Timed(ttl),
            Lifetime::Container => Term::Container,
        }
    }
}

/// The kind of a node that is created: one of the modes of ZooKeeper's `CreateMode`.
#[derive(Clone, Copy, Debug, PartialEq, Eq)]
pub struct Kind {
    /// How long it stays.
    pub lifetime: Lifetime,
    /// Whether ten digits of the parent's counter are appended to its name.
    pub is_sequential: bool,
}

impl Kind {
    ghost use Rattle.std.specs.Prelude.{◌≡◌};
    ghost use Rattle.zcalls.specs.Part.{named, sequential};

    /// A node of just the name that is asked for.
    pub fn named(lifetime: Lifetime) -> Kind
        ensures { result ≡ named lifetime }
    {
        Kind {
            lifetime,
            is_sequential: false,
        }
    }

    /// A sequential node: ten digits of the parent's counter are appended to its name.
    pub fn sequential(lifetime: Lifetime) -> Kind
        ensures { result ≡ sequential lifetime }
    {
        Kind {
            lifetime,
            is_sequential: true,
        }
    }
}

/// The version of a node that a call expects.
#[derive(Clone, Copy, Debug, PartialEq, Eq)]
pub enum Expected {
    /// Any version.
    Any,
    /// Exactly this version.
    Exactly(u64),
}

/// A create (ZooKeeper Programmer's Guide, "ZNodes").
#[derive(Drop)]
pub struct Create {
    /// The path to create. For a sequential kind, the parent's counter is appended to it.
    pub path: Path,
    /// The kind of the node.
    pub kind: Kind,
    /// Its data.
    pub bytes: Data,
}

/// A delete.
#[derive(Drop)]
pub struct Delete {
    /// The path of the node.
    pub path: Path,
    /// The version it must have.
    pub version: Expected,
}

/// A set: a write of a node's data.
#[derive(Drop)]
pub struct SetData {
    /// The path of the node.
    pub path: Path,
    /// Its new data.
    pub bytes: Data,
    /// The version it must have.
    pub version: Expected,
}

/// A write of a node's access control list. Each list is the open one, so this is only counted.
#[derive(Drop)]
pub struct SetAcl {
    /// The path of the node.
    pub path: Path,
    /// The version that its list must have.
    pub version: Expected,
}

/// A check of a node's version.
#[derive(Drop)]
pub struct Check {
    /// The path of the node.
    pub path: Path,
    /// The version it must have.
    pub version: Expected,
}

/// One part of a multi.
#[derive(Drop)]
pub enum Part {
    /// Creates a node.
    Create(Create),
    /// Deletes a node.
    Delete(Delete),
    /// Writes a node's data.
    SetData(SetData),
    /// Checks that a node exists and has the version; changes nothing.
    Check(Check),
}

/// A call that may change the tree.
#[derive(Drop)]
pub enum Update {
    /// Creates a node.
    Create(Create),
    /// Deletes a node.
    Delete(Delete),
    /// Writes a node's data.
    SetData(SetData),
    /// Writes a node's access control list.
    SetAcl(SetAcl),
    /// Does all of its parts, or none.
    Multi(Multi),
    /// Opens a session for the calling client. The argument is the timeout asked for, in ticks.
    Open(u64),
    /// Renews the client's session with this id.
    Ping(SessionId),
    /// Ends the client's session with this id.
    Close(SessionId),
    /// Advances the clock by one tick. It ends each session whose deadline is reached. Then it
    /// removes each node that had no children before the tick, if its TTL has expired, or if it is
    /// a container that has had children.
    Tick,
}

/// A call that reads the tree and changes nothing.
#[derive(Drop)]
pub enum Query {
    /// Reads the data and the stat of a node.
    GetData(Path),
    /// Reads the stat of a node.
    Exists(Path),
    /// Reads the names of a node's children.
    GetChildren(Path),
}

/// A call of a client.
#[derive(Drop)]
pub enum Call {
    /// A call that may change the tree.
    Update(Update),
    /// A call that changes nothing.
    Query(Query),
}

/// A log entry: an update, its client, and that client's number for the call. Every machine applies
/// the entries in the same order.
#[derive(Drop)]
pub struct Entry {
    /// The calling client.
    pub client: ClientId,
    /// The client's number of the call.
    pub number: CallNumber,
    /// The update.
    pub update: Update,
}
