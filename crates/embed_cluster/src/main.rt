//! A cluster in a program, used by two threads with a client each. The second one can't miss what
//! the first one wrote, while a server joins and another one is halted. The cluster is untraced, so
//! it could run indefinitely.
#![tactic(auto)]

ghost use Rattle.std.specs.Prelude.{◌≡◌};
ghost use Rattle.zrun.specs.Clients.{SameClient};
ghost use Rattle.zrun.specs.Members.{clients_run};

use std::alloc::Global;
use std::io::Write;
use std::process::ExitCode;
use std::sync::Wait;
use std::thread;
use std::thread::Threads;
use zrun::{
    Call, Client, ClientId, Clients, Cluster, Data, Fault, HandsBack, Path, Patience, Reply,
    ServerId, open_gates,
};

// How long to wait for a response.
const PATIENCE: Patience = Patience {
    turns: 100_000,
    retries: 1_000,
};

fn main(rt: HostRuntime) -> ExitCode {
    match run(rt, rt.alloc()) {
        Some(true) => {
            let reported = rt.stdout().write_all(b"written, found, and nothing lost\n");
            if reported.is_ok() {
                ExitCode::SUCCESS
            } else {
                ExitCode::FAILURE
            }
        }
        _ => ExitCode::FAILURE,
    }
}

// Starts a chain of two servers, uses it and ends it. Returns whether all went as expected.
fn run<R: Threads + Wait + Copy + Send + 'static>(rt: R, alloc: Global) -> Option<bool> {
    let last = ServerId::new(2)?;
    let gates = open_gates(alloc).ok()?;
    let (cluster, mut console, mut clients) = Cluster::start_untraced(
        rt, alloc, last, 2, gates,
    ).ok()?;
    let is_ordered = match ServerId::new(3) {
        Some(server) => console.join(&rt, server).is_ok(),
        None => false,
    };
    let is_found = write_and_read(&rt, alloc, &mut clients);
    let is_known = cluster.end(&rt, alloc, console, clients).ok()?;
    Some(is_ordered && is_found == Some(true) && is_known)
}

// The first client writes on a thread of its own. The second one learns its timestamp, and reads.
// Returns whether it found what was written.
#[tactic(auto, using(zrun::proofs::Still::still_belongs))]
fn write_and_read<R: Threads>(rt: &R, alloc: Global, clients: &mut Clients) -> Option<bool>
    ensures { clients_run clients.new ≡ clients_run clients.old }
{
    let writer = clients.take(ClientId::new(0)?)?;
    let promise = HandsBack::of(&writer);
    let Ok(handle) = thread::spawn_with(
        rt,
        promise,
        move || -> (Client, bool)
            ensures { SameClient writer result.0 }
        { write(writer, alloc) },
    ) else {
        return None;
    };
    let (writer, is_written) = handle.join(rt);
    let stamp = writer.stamp();
    clients.put(writer);
    let mut reader = clients.take(ClientId::new(1)?)?;
    reader.learn(stamp);
    let found = is_there(&mut reader, alloc);
    clients.put(reader);
    Some(is_written && found == Ok(true))
}

// Creates the node, and halts the first server.
fn write(mut client: Client, alloc: Global) -> (Client, bool)
    ensures { SameClient client result.0 }
{
    let is_written = create(&mut client, alloc).is_ok();
    if let Some(server) = ServerId::new(1) {
        client.halt(server);
    }
    (client, is_written)
}

// Creates the node.
fn create(client: &mut Client, alloc: Global) -> Result<(), Fault>
    ensures { SameClient client.old client.new }
{
    let path = Path::parse(alloc, "/config")?;
    let reply = client.ask(Call::create(path, Data::empty()), PATIENCE)?;
    match reply {
        Reply::Created(path) => {
            drop(path);
            Ok(())
        }
        other => Err(Fault::from(other)),
    }
}

// Returns whether the node exists.
fn is_there(client: &mut Client, alloc: Global) -> Result<bool, Fault>
    ensures { SameClient client.old client.new }
{
    let path = Path::parse(alloc, "/config")?;
    let reply = client.ask(Call::exists(path), PATIENCE)?;
    Ok(matches!(&reply, Reply::Exists(_)))
}
