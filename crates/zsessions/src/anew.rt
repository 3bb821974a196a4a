//! Copying a table's rows under new Ids.
//!
//! # Why
//! No caller sees these Ids, so a copy may renumber them.

ghost use Rattle.std.specs.Prelude.{◌≡◌, ◌<◌, IfOk, length, nat_eq};
ghost use Rattle.std.specs.List.{IsDistinct};
ghost use Rattle.std.specs.Map.{keys_of};
ghost use Rattle.zslots.specs.declared.limits.TheConstants.{GIVEN_BOUND};
ghost use Rattle.zsessions.specs.support.Rows.{sessions_of};

use crate::buckets::session_of;
use crate::row::SessionRow;
use crate::table::Table;
use std::alloc::Global;
use std::collections::HashMap;
use zalloc::Memory;
use zslots::{Id, Slots};
use ztree::SessionId;

/// Returns a table with the same sessions, under freshly numbered Ids; or `Memory`.
pub(crate) fn opened_anew(
    alloc: Global,
    rows: &Slots<SessionRow>,
    ids: &HashMap<u64, Id>,
) -> Result<Table, Memory>
    ensures sessions { IfOk result (λ t.
        t.sessions ≡ sessions_of ids.now.entries rows.now.items) }
    ensures given { IfOk result (λ t. t.given < GIVEN_BOUND) }
{
    let mut copy = Table::new(alloc);
    keeps_unique(ids);
    for (number, at) in ids {
        let Some(session) = session_of(rows, *at) else {
            continue;
        };
        copy.open(SessionId::new(*number), session)?;
    }
    Ok(copy)
}

// An invariant of every map of Ids: no Id occurs twice in it, and it is far shorter than the number
// of Ids to give out. The function does nothing.
fn keeps_unique(ids: &HashMap<u64, Id>)
    ensures unique { IsDistinct nat_eq (keys_of ids.now.entries) }
    ensures few { length ids.now.entries < GIVEN_BOUND }
{
    let _ = ids.len();
}
