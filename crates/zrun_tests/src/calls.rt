//! Calls, and how they are asked for.

ghost use Rattle.zrun.specs.Clients.{SameClient};

use std::alloc::Global;
use zcalls::{Call, Create, Data, Expected, Kind, Lifetime, Query, Reply, SetData, Update};
use zpath::Path;
use zrun::{Client, Patience};

// How long to wait for an answer: no test comes near the end of it.
const PATIENCE: Patience = Patience {
    turns: 100_000,
    retries: 1_000,
};

/// A create of a persistent node without data.
pub fn create(alloc: Global, path: &str) -> Option<Call> {
    Some(Call::Update(Update::Create(Create {
        path: Path::parse(alloc, path).ok()?,
        kind: Kind::named(Lifetime::Persistent),
        bytes: Data::empty(),
    })))
}

/// A set to empty data, of any version.
pub fn set(alloc: Global, path: &str) -> Option<Call> {
    Some(Call::Update(Update::SetData(SetData {
        path: Path::parse(alloc, path).ok()?,
        bytes: Data::empty(),
        version: Expected::Any,
    })))
}

/// Whether there is such a node, and its stat.
pub fn exists(alloc: Global, path: &str) -> Option<Call> {
    Some(Call::Query(Query::Exists(Path::parse(alloc, path).ok()?)))
}

/// A node's data.
pub fn get(alloc: Global, path: &str) -> Option<Call> {
    Some(Call::Query(Query::GetData(Path::parse(alloc, path).ok()?)))
}

/// The reply of a call, which is sent again while it has none.
pub fn ask(client: &mut Client, call: Call) -> Option<Reply>
    ensures { SameClient client.old client.new }
{
    client.ask(call, PATIENCE).ok()
}
