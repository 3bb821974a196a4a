//! Calls, and parts of a multi, each made in one line.

ghost use Rattle.std.specs.Prelude.{◌≡◌};
ghost use Rattle.zcalls.specs.Part.{named};
ghost use Rattle.zcalls.specs.declared.call.Lifetime.TheVariants.{Persistent};

use crate::call::{
    Call, Check, Create, Delete, Expected, Kind, Lifetime, Query, SetAcl, SetData, Update,
};
use crate::multi::Multi;
use zpath::Path;
use ztree::{Data, SessionId};

impl Create {
    /// A create of a node of this kind.
    pub fn new(path: Path, kind: Kind, bytes: Data) -> Create
        ensures { result ≡ record { path = path; kind = kind; bytes = bytes } }
    {
        Create { path, kind, bytes }
    }
}

impl Delete {
    /// A delete of a node that has this version.
    pub fn new(path: Path, version: Expected) -> Delete
        ensures { result ≡ record { path = path; version = version } }
    {
        Delete { path, version }
    }
}

impl SetData {
    /// A write of the data of a node that has this version.
    pub fn new(path: Path, bytes: Data, version: Expected) -> SetData
        ensures { result ≡ record { path = path; bytes = bytes; version = version } }
    {
        SetData {
            path,
            bytes,
            version,
        }
    }
}

impl SetAcl {
    /// A write of the access control list of a node whose list has this version.
    pub fn new(path: Path, version: Expected) -> SetAcl
        ensures { result ≡ record { path = path; version = version } }
    {
        SetAcl { path, version }
    }
}

impl Check {
    /// A check that a node has this version.
    pub fn new(path: Path, version: Expected) -> Check
        ensures { result ≡ record { path = path; version = version } }
    {
        Check { path, version }
    }
}

impl Call {
    /// Creates a persistent node.
    pub fn create(path: Path, bytes: Data) -> Call
        ensures { result ≡ Call.Update (Update.Create
            (record { path = path; kind = named Persistent; bytes = bytes })) }
    {
        Call::create_as(path, Kind::named(Lifetime::Persistent), bytes)
    }

    /// Creates a node of this kind.
    pub fn create_as(path: Path, kind: Kind, bytes: Data) -> Call
        ensures { result ≡ Call.Update (Update.Create
            (record { path = path; kind = kind; bytes = bytes })) }
    {
        Call::Update(Update::Create(Create::new(path, kind, bytes)))
    }

    /// Deletes a node that has this version.
    pub fn delete(path: Path, version: Expected) -> Call
        ensures { result ≡ Call.Update (Update.Delete
            (record { path = path; version = version })) }
    {
        Call::Update(Update::Delete(Delete::new(path, version)))
    }

    /// Writes the data of a node that has this version.
    pub fn set(path: Path, bytes: Data, version: Expected) -> Call
        ensures { result ≡ Call.Update (Update.SetData
            (record { path = path; bytes = bytes; version = version })) }
    {
        Call::Update(Update::SetData(SetData::new(path, bytes, version)))
    }

    /// Writes the access control list of a node whose list has this version.
    pub fn set_acl(path: Path, version: Expected) -> Call
        ensures { result ≡ Call.Update (Update.SetAcl
            (record { path = path; version = version })) }
    {
        Call::Update(Update::SetAcl(SetAcl::new(path, version)))
    }

    /// Does all parts, or none.
    pub fn multi(parts: Multi) -> Call
        ensures { result ≡ Call.Update (Update.Multi parts) }
    {
        Call::Update(Update::Multi(parts))
    }

    /// Reads the data and the stat of a node.
    pub fn get(path: Path) -> Call
        ensures { result ≡ Call.Query (Query.GetData path) }
    {
        Call::Query(Query::GetData(path))
    }

    /// Reads the stat of a node.
    pub fn exists(path: Path) -> Call
        ensures { result ≡ Call.Query (Query.Exists path) }
    {
        Call::Query(Query::Exists(path))
    }

    /// Reads the names of a node's children.
    pub fn children(path: Path) -> Call
        ensures { result ≡ Call.Query (Query.GetChildren path) }
    {
        Call::Query(Query::GetChildren(path))
    }

    /// Opens a session with this timeout, in ticks.
    pub fn open(timeout: u64) -> Call
        ensures { result ≡ Call.Update (Update.Open timeout) }
    {
        Call::Update(Update::Open(timeout))
    }

    /// Renews the client's session.
    pub fn ping(session: SessionId) -> Call
        ensures { result ≡ Call.Update (Update.Ping session) }
    {
        Call::Update(Update::Ping(session))
    }

    /// Ends the client's session.
    pub fn close(session: SessionId) -> Call
        ensures { result ≡ Call.Update (Update.Close session) }
    {
        Call::Update(Update::Close(session))
    }

    /// Advances the clock by one tick.
    pub fn tick() -> Call
        ensures { result ≡ Call.Update Update.Tick }
    {
        Call::Update(Update::Tick)
    }
}
