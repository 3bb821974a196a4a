//! The traces of a run.
//!
//! # Why
//!
//! If a trace is cut already, no channel is asked what passed: nothing is known of that run. If a
//! channel doesn't show it, the master's trace is cut.

ghost use Rattle.std.specs.Prelude.{◌≡◌, ◌≤◌, false, IfOk, length, map};
ghost use Rattle.ztree.specs.declared.limits.TheConstants.{MAX_CLIENTS};
ghost use Rattle.zprotocol.specs.declared.limits.TheConstants.{MAX_SERVERS};
ghost use Rattle.zprotocol.specs.traces.Audit.{is_any_cut};
ghost use Rattle.zprotocol.specs.traces.Lawful.{AreLawful};
ghost use Rattle.zrun.specs.Left.{AreLeft, AreWiredUnlessCut, by_place, client_trace_of};
ghost use Rattle.zrun.specs.Left.{CutsNoMore, traces_of};

use crate::keeping::{is_any_cut, keep, keep_clients, keep_servers};
use std::alloc::Global;
use zalloc::Memory;
use zchannels::{Mesh, are_reported};
use zprotocol::ServerId;
use zprotocol::traces::{ClientTrace, Traces};
use zthreads::Ending;

/// Returns the traces of a run, from what its processes left: the master, the servers by number,
/// and the clients by number. The chain began with the servers up to `last`. The traces are lawful,
/// unless one is cut. The master's trace is cut where a channel doesn't show what was sent on it.
///
/// The only error is out of memory.
pub(crate) fn gather(
    alloc: Global,
    last: ServerId,
    master: Ending,
    servers: Vec<Ending>,
    clients: Vec<Ending>,
) -> Result<Traces, Memory>
    requires servers { length servers.items ≡ MAX_SERVERS }
    requires clients { length clients.items ≤ MAX_CLIENTS }
    requires left { AreLeft last (length clients.items)
        (by_place master servers.items clients.items) }
    requires wired { AreWiredUnlessCut master servers.items clients.items }
    ensures last { IfOk result (λ traces. traces.last ≡ last) }
    ensures master { IfOk result (λ traces. traces.master.events ≡ master.trace.events) }
    ensures servers { IfOk result (λ traces. traces.servers.items ≡ traces_of servers.items) }
    ensures clients { IfOk result (λ traces. traces.clients.items
        ≡ map client_trace_of clients.items) }
    ensures lawful { IfOk result (λ traces.
        is_any_cut traces ≡ false → ∥ AreLawful traces ∥₁) }
    ensures whole { IfOk result (CutsNoMore master servers.items clients.items) }
{
    let is_cut = master.trace.is_cut | (is_any_cut(&servers) | is_any_cut(&clients));
    let outs = Vec::new(alloc);
    let ins = Vec::new(alloc);
    let mut mesh = Mesh { outs, ins };
    let Ok(kept) = keep(&mut mesh, master) else {
        drop((mesh, servers, clients));
        return Err(Memory);
    };
    let ClientTrace {
        trace: mut trace,
        record,
    } = kept;
    drop(record);
    let Ok(servers) = keep_servers(alloc, &mut mesh, servers) else {
        drop((mesh, trace, clients));
        return Err(Memory);
    };
    let Ok(clients) = keep_clients(alloc, &mut mesh, clients) else {
        drop((mesh, trace, servers));
        return Err(Memory);
    };
    let is_reported = if is_cut {
        drop(mesh);
        true
    } else {
        are_reported(mesh)
    };
    if !is_reported {
        trace.is_cut = true;
    }
    Ok(Traces {
        last,
        master: trace,
        servers,
        clients,
    })
}
