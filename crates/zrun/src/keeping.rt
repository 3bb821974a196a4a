//! Splits what a process left: its ends of the channels, and its trace.

ghost use Rattle.std.specs.Prelude.{◌≡◌, ◌∷◌, ◌++◌, [], IfOk, OnOk, map};
ghost use Rattle.std.specs.List.{list_any};
ghost use Rattle.zthreads.specs.declared.endpoint.Ending.{Ending};
ghost use Rattle.zrun.specs.Left.{client_trace_of, ins_of, outs_of, traces_of};

use std::alloc::Global;
use zalloc::Memory;
use zchannels::Mesh;
use zprotocol::traces::{ClientTrace, Trace};
use zthreads::{Ending, Stamped};

/// Returns whether one of the traces is cut.
pub(crate) fn is_any_cut(endings: &Vec<Ending>) -> bool
    ensures { result ≡ list_any (λ (e : Ending). e.trace.is_cut) endings.now.items }
{
    endings.iter().any(|ending| ending.trace.is_cut)
}

/// Returns whether what one of the processes did is lost.
pub(crate) fn is_any_lost(endings: &Vec<Ending>) -> bool
    ensures { result ≡ list_any (λ (e : Ending). e.is_lost) endings.now.items }
{
    endings.iter().any(|ending| ending.is_lost)
}

/// Appends the ends of one process to the others, and returns its trace with what its caller saw.
pub(crate) fn keep(mesh: &mut Mesh<Stamped>, ending: Ending) -> Result<ClientTrace, Memory>
    ensures outs { OnOk result (mesh.new.outs.items ≡ mesh.old.outs.items ++ ending.outs ∷ []) }
    ensures ins { OnOk result (mesh.new.ins.items ≡ mesh.old.ins.items ++ ending.ins ∷ []) }
    ensures trace { IfOk result (λ kept. kept ≡ client_trace_of ending) }
{
    let Ending {
        ins,
        outs,
        trace,
        seen,
        ..
    } = ending;
    mesh.outs.push(outs)?;
    mesh.ins.push(ins)?;
    Ok(ClientTrace {
        trace,
        record: seen,
    })
}

/// Does the same for all servers.
pub(crate) fn keep_servers(
    alloc: Global,
    mesh: &mut Mesh<Stamped>,
    endings: Vec<Ending>,
) -> Result<Vec<Trace>, Memory>
    ensures outs { OnOk result (mesh.new.outs.items ≡ mesh.old.outs.items
        ++ outs_of endings.items) }
    ensures ins { OnOk result (mesh.new.ins.items ≡ mesh.old.ins.items ++ ins_of endings.items) }
    ensures traces { IfOk result (λ traces. traces.items ≡ traces_of endings.items) }
{
    let mut traces = Vec::with_capacity(alloc, endings.len())?;
    for ending in endings {
        traces.push(keep(mesh, ending)?.trace)?;
    }
    Ok(traces)
}

/// Does the same for all clients.
pub(crate) fn keep_clients(
    alloc: Global,
    mesh: &mut Mesh<Stamped>,
    endings: Vec<Ending>,
) -> Result<Vec<ClientTrace>, Memory>
    ensures outs { OnOk result (mesh.new.outs.items ≡ mesh.old.outs.items
        ++ outs_of endings.items) }
    ensures ins { OnOk result (mesh.new.ins.items ≡ mesh.old.ins.items ++ ins_of endings.items) }
    ensures traces { IfOk result (λ traces. traces.items ≡ map client_trace_of endings.items) }
{
    let mut traces = Vec::with_capacity(alloc, endings.len())?;
    for ending in endings {
        traces.push(keep(mesh, ending)?)?;
    }
    Ok(traces)
}
