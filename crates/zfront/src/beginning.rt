//! The tables that a front begins with.

ghost use Rattle.std.specs.Prelude.{◌≡◌, IfOk};
ghost use Rattle.zfront.specs.Restoring.{tables_of};

use std::alloc::Global;
use zalloc::Memory;
use zconnections::Tables;
use ztree::SessionId;
use zwatches::WatchLimits;

/// Returns tables with these limits and these sessions, without connections.
pub(crate) fn tables_of(
    alloc: Global,
    limits: WatchLimits,
    sessions: &[SessionId],
) -> Result<Tables, Memory>
    ensures { IfOk result (λ tables. tables ≡ tables_of limits sessions.now) }
{
    let mut tables = Tables::new(alloc, limits);
    for session in sessions {
        tables.restore(*session)?;
    }
    Ok(tables)
}
