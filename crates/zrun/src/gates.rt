//! The gates of a cluster in which no server is held.

ghost use Rattle.std.specs.Prelude.{◌≡◌, IfOk, length};
ghost use Rattle.zprotocol.specs.declared.limits.TheConstants.{MAX_SERVERS};

use std::alloc::Global;
use zalloc::Memory;
use zprotocol::MAX_SERVERS;
use zthreads::Open;

/// Returns a gate for each server that lets all pass. The only error is out of memory.
pub fn open_gates(alloc: Global) -> Result<Vec<Open>, Memory>
    ensures { IfOk result (λ gates. length gates.items ≡ MAX_SERVERS) }
{
    let mut gates = Vec::with_capacity(alloc, MAX_SERVERS as usize)?;
    for _ in 0..MAX_SERVERS {
        gates.push(Open)?;
    }
    Ok(gates)
}
