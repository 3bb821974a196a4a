//! The sessions of a bucket that expire at a tick.

ghost use Rattle.std.specs.Prelude.{◌≡◌, IfOk, OnOk};
ghost use Rattle.zslots.specs.Ids.{Ids};
ghost use Rattle.zslots.specs.Lists.{IsList};
ghost use Rattle.zsessions.specs.support.Rows.{row_links, due_at, AreReached, AppendsOption};

use crate::row::SessionRow;
use std::alloc::Global;
use zalloc::Memory;
use zslots::{Id, List, Slots};
use ztree::SessionId;

/// Returns the ids of the sessions in the bucket that expire at the tick, in the bucket's order; or
/// `Memory`.
pub(crate) fn reached(
    alloc: Global,
    rows: &Slots<SessionRow>,
    bucket: &List<0>,
    tick: u64,
) -> Result<Vec<SessionId>, Memory>
    requires { (ids : Ids) × IsList row_links rows.now.items bucket.now ids }
    ensures { IfOk result (λ found. AreReached rows.now.items bucket.now tick found.items) }
{
    let mut found = Vec::new(alloc);
    let mut at = bucket.first();
    while let Some(id) = at {
        push_if_due(rows, id, tick, &mut found)?;
        at = bucket.next(rows, id);
    }
    Ok(found)
}

/// Appends the id of a row's session, if it expires at the tick.
fn push_if_due(
    rows: &Slots<SessionRow>,
    id: Id,
    tick: u64,
    ids: &mut Vec<SessionId>,
) -> Result<(), Memory>
    ensures { OnOk result
        (AppendsOption ids.old.items ids.new.items (due_at rows.now.items tick id)) }
{
    if let Some(row) = rows.get(id) {
        if row.session.deadline <= tick {
            ids.push(row.id)?;
        }
    }
    Ok(())
}
