//! The check of watched nodes.
//!
//! # Why
//!
//! All that a tick or the end of a session deletes is one change. So a parent whose pzxid is that
//! change has lost a child in it.

ghost use Rattle.std.specs.Prelude.{◌≡◌, OnOk};
ghost use Rattle.zconnections.specs.Reporting.{reported_all};
ghost use Rattle.zresponses.specs.effects.Looking as table;

use crate::effects::seeing::seen;
use std::alloc::Global;
use zalloc::Memory;
use zcalls::Reply;
use zconnections::Tables;
use zpath::Path;
use ztree::Zxid;

/// Sends the events of the nodes that the change of this zxid deleted, and of those that lost a
/// child in it. The reply for each path says whether its node exists.
pub fn look(
    alloc: Global,
    tables: &mut Tables,
    zxid: Zxid,
    paths: &[Path],
    replies: &[Reply],
) -> Result<(), Memory>
    ensures { OnOk result (tables.new
        ≡ reported_all (table.seen zxid paths.now replies.now) tables.old) }
{
    let events = seen(alloc, zxid, paths, replies)?;
    tables.report_all(&events)
}
