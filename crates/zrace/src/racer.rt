//! A racing client: its calls, and the versions that it received.

ghost use Rattle.std.specs.Prelude.{◌≡◌, [], All, IfSome};
ghost use Rattle.zcalls.specs.declared.call.Call.TheVariants as call;
ghost use Rattle.zcalls.specs.declared.call.Query.TheVariants as query;
ghost use Rattle.zrun.specs.Asked.{CalledPatientlyUntil};
ghost use Rattle.zrun.specs.Clients.{SameClient};
ghost use Rattle.zrace.specs.Shown.{Continues, IsShownBy, IsShownOf};
ghost use Rattle.zrace.specs.Seen.{HasSeen, IsPathOf, IsReportedOf, WasReportedSince};
ghost use Rattle.zrace.specs.declared.racer.TheConstants.{PATIENCE};

use crate::keeping::keep;
use std::alloc::Global;
use std::snapshot::Snapshot;
use std::thread::Promise;
use zcalls::{Call, Create, Data, Expected, Kind, Lifetime, Query, Reply, SetData, Update};
use zpath::Path;
use zprotocol::ServerId;
use zrun::{Client, Patience};

// How long a client waits for a reply. No race comes near this limit.
const PATIENCE: Patience = Patience {
    turns: 100_000,
    retries: 1_000,
};

/// Nodes, each with the version that the client received.
pub(crate) type Seen = Vec<(u64, u64)>;

/// A racing client, and the versions that it received.
#[derive(Drop)]
pub(crate) struct Racer {
    pub(crate) client: Client,
    pub(crate) seen: Seen,
    ghost reported: { All (λ it. HasSeen client it.0 it.1) seen.items },
    ghost recorded: { All (λ it. IsShownBy client it.0 it.1) seen.items },
}

/// The promise to return this client, with the versions that it received.
#[derive(Drop)]
pub(crate) struct Returns(pub(crate) Snapshot<Client>);

impl Promise<Racer> for Returns {
    ghost kept_by = { λ p r. SameClient p.0.value r.client };
}

impl Racer {
    /// Returns a racer that has received nothing yet.
    pub(crate) fn new(client: Client, seen: Seen) -> Racer
        requires { seen.items ≡ [] }
        ensures { result.client ≡ client }
    {
        Racer { client, seen }
    }

    /// Makes the three calls of a node. Returns false where it received no version, or memory ran
    /// out.
    pub(crate) fn lap(&mut self, alloc: Global, node: u64, halted: Option<ServerId>) -> bool
        ensures { SameClient self.old.client self.new.client }
    {
        let Some(version) = call_thrice(&mut self.client, alloc, node, halted) else {
            return false;
        };
        keep(&mut self.seen, (node, version))
    }
}

// Creates a node, sets it once, and asks for its version. The server is halted after the set. The
// three calls share the node's path.
fn call_thrice(
    client: &mut Client,
    alloc: Global,
    node: u64,
    halted: Option<ServerId>,
) -> Option<u64>
    ensures same { SameClient client.old client.new }
    ensures goes { Continues client.old client.new }
    ensures reported { IfSome result (WasReportedSince node client.old client.new) }
    ensures recorded { IfSome result (IsShownBy client.new node) }
{
    let path = path_of(alloc, node)?;
    let created = ask(client, create(alloc, &path)?)?;
    drop(created);
    let set = ask(client, set(alloc, &path)?)?;
    drop(set);
    halt_one(client, halted);
    version_of(client, path)
}

// Invokes a call, and waits for its reply. Returns `None` if it gets none.
fn ask(client: &mut Client, call: Call) -> Option<Reply>
    ensures same { SameClient client.old client.new }
    ensures goes { Continues client.old client.new }
    ensures reply { IfSome result (CalledPatientlyUntil PATIENCE call client.old client.new) }
{
    client.ask(call, PATIENCE).ok()
}

// Halts this server, if any.
fn halt_one(client: &mut Client, halted: Option<ServerId>)
    ensures same { SameClient client.old client.new }
    ensures goes { Continues client.old client.new }
{
    if let Some(server) = halted {
        client.halt(server);
    }
}

// Asks for the version of the node with this path.
fn version_of(client: &mut Client, path: Path) -> Option<u64>
    ensures same { SameClient client.old client.new }
    ensures goes { Continues client.old client.new }
    ensures reported { IfSome result (λ version. IsReportedOf path version client.old client.new) }
    ensures recorded { IfSome result (IsShownOf path client.new) }
{
    let Some(reply) = ask(client, exists(path)) else {
        return None;
    };
    match reply {
        Reply::Exists(stat) => Some(stat.version),
        other => {
            drop(other);
            None
        }
    }
}

fn create(alloc: Global, path: &Path) -> Option<Call> {
    let path = path.clone().ok()?;
    let bytes = Data::empty();
    Some(Call::Update(Update::Create(Create {
        path,
        kind: Kind::named(Lifetime::Persistent),
        bytes,
    })))
}

fn set(alloc: Global, path: &Path) -> Option<Call> {
    let path = path.clone().ok()?;
    let bytes = Data::empty();
    Some(Call::Update(Update::SetData(SetData {
        path,
        bytes,
        version: Expected::Any,
    })))
}

fn exists(path: Path) -> Call
    ensures { result ≡ call.Query (query.Exists path) }
{
    Call::Query(Query::Exists(path))
}

fn path_of(alloc: Global, node: u64) -> Option<Path>
    ensures { IfSome result (IsPathOf node) }
{
    let text = format!(in alloc; "/n{node}").ok()?;
    Path::parse(alloc, text.as_str()).ok()
}
