//! Whether a run is known to be lawful, with or without traces.

ghost use Rattle.std.specs.Prelude.{◌≡◌, true, false, IfOk};
ghost use Rattle.zrun.specs.Left.{AreLinked, AreWiredUnlessLost, by_place, is_left_lost};

use crate::keeping::{is_any_lost, keep, keep_clients, keep_servers};
use std::alloc::Global;
use zalloc::Memory;
use zchannels::{Mesh, are_reported};
use zthreads::Ending;

/// Returns whether it is known of a run that it was lawful, from what its processes left: the
/// master, the servers by number, and the clients by number. It isn't known if what one of them did
/// is lost, or if a channel doesn't show what was sent on it.
///
/// The only error is out of memory.
pub(crate) fn is_known(
    alloc: Global,
    master: Ending,
    servers: Vec<Ending>,
    clients: Vec<Ending>,
) -> Result<bool, Memory>
    requires { AreWiredUnlessLost master servers.items clients.items }
    ensures linked { IfOk result (λ is_known. is_known ≡ true
        → AreLinked (by_place master servers.items clients.items)) }
    ensures lost { IfOk result (λ is_known.
        is_left_lost master servers.items clients.items ≡ true → is_known ≡ false) }
{
    if master.is_lost | (is_any_lost(&servers) | is_any_lost(&clients)) {
        drop((master, servers, clients));
        return Ok(false);
    }
    let outs = Vec::new(alloc);
    let ins = Vec::new(alloc);
    let mut mesh = Mesh { outs, ins };
    let Ok(kept) = keep(&mut mesh, master) else {
        drop((mesh, servers, clients));
        return Err(Memory);
    };
    drop(kept);
    let Ok(traces) = keep_servers(alloc, &mut mesh, servers) else {
        drop((mesh, clients));
        return Err(Memory);
    };
    drop(traces);
    let Ok(records) = keep_clients(alloc, &mut mesh, clients) else {
        drop(mesh);
        return Err(Memory);
    };
    drop(records);
    Ok(are_reported(mesh))
}
