//! An untraced cluster, and one client that makes many calls, so its calls a second and its memory
//! are measured. They are alternately a set of one node and a read of it. After each tenth of the
//! calls it writes how many are done, and at the end whether nothing was lost.

ghost use Rattle.std.specs.Prelude.{◌≡◌};
ghost use Rattle.zrun.specs.Clients.{SameClient};
ghost use Rattle.zrun.specs.Members.{clients_run};

use crate::calls::{PATIENCE, create, get, set};
use crate::order::Long;
use std::alloc::Global;
use std::io::Write;
use std::sync::Wait;
use std::thread::Threads;
use zrun::{Call, Client, ClientId, Clients, Cluster, Fault, open_gates};

// In how many parts of all calls it reports how many are done.
const PARTS: u64 = 10;

/// Starts a cluster, lets a client make calls, and ends it. Returns whether nothing was lost.
pub fn went<R: Threads + Wait + Copy + Send + 'static, W: Write>(
    rt: R,
    out: &mut W,
    alloc: Global,
    order: Long,
) -> Option<bool> {
    let gates = open_gates(alloc).ok()?;
    let (cluster, console, mut clients) = Cluster::start_untraced(
        rt, alloc, order.last, 1, gates,
    ).ok()?;
    let is_done = one_calls(out, alloc, &mut clients, order.calls);
    let is_known = cluster.end(&rt, alloc, console, clients).ok()?;
    if is_done { Some(is_known) } else { None }
}

// Makes the client's calls. Returns whether all were answered.
#[tactic(auto, using(zrun::proofs::Still::still_belongs))]
fn one_calls<W: Write>(out: &mut W, alloc: Global, clients: &mut Clients, calls: u64) -> bool
    ensures { clients_run clients.new ≡ clients_run clients.old }
{
    let Some(id) = ClientId::new(0) else {
        return false;
    };
    let Some(mut one) = clients.take(id) else {
        return false;
    };
    let is_done = call_all(out, alloc, &mut one, calls).is_some();
    clients.put(one);
    is_done
}

fn call_all<W: Write>(out: &mut W, alloc: Global, client: &mut Client, calls: u64) -> Option<()>
    ensures { SameClient client.old client.new }
{
    if ask(client, create(alloc)).is_err() {
        return None;
    }
    for part in 1..PARTS + 1 {
        if !call_some(alloc, client, calls / PARTS) {
            return None;
        }
        let done = calls / PARTS * part;
        writeln!(out, "{done}").ok()?;
    }
    Some(())
}

// Makes that many calls. Returns whether all were answered.
fn call_some(alloc: Global, client: &mut Client, calls: u64) -> bool
    ensures { SameClient client.old client.new }
{
    for number in 0..calls {
        let call = if number % 2 == 0 {
            set(alloc)
        } else {
            get(alloc)
        };
        if ask(client, call).is_err() {
            return false;
        }
    }
    true
}

// Makes a call, and waits for its reply.
fn ask(client: &mut Client, call: Result<Call, Fault>) -> Result<(), Fault>
    ensures { SameClient client.old client.new }
{
    drop(client.ask(call?, PATIENCE)?);
    Ok(())
}
