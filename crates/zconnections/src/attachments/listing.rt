//! The ids of a table's sessions.

ghost use Rattle.std.specs.Prelude.{◌≡◌, IfOk};
ghost use Rattle.std.specs.Ordering.{nat_cmp};
ghost use Rattle.std.specs.BTreeMap.{IsOrdered, keys};
ghost use Rattle.zconnections.specs.attachments.support.Entries.{touched_among};

use crate::attachments::attachment::Attachment;
use std::alloc::Global;
use std::collections::BTreeMap;
use zalloc::Memory;
use ztree::SessionId;

/// Returns the ids of the touched entries, in order; or `Memory`.
pub(crate) fn touched_among(
    alloc: Global,
    table: &BTreeMap<u64, Attachment>,
) -> Result<Vec<SessionId>, Memory>
    ensures { IfOk result (λ ids. IsOrdered nat_cmp table.now
        × (ids.items ≡ touched_among table.now.entries)) }
{
    let mut ids = Vec::new(alloc);
    for (id, attachment) in table {
        if attachment.is_touched || attachment.was_touched {
            ids.push(SessionId::new(*id))?;
        }
    }
    Ok(ids)
}

/// Returns the ids of all entries, in order; or `Memory`.
pub(crate) fn all_among(
    alloc: Global,
    table: &BTreeMap<u64, Attachment>,
) -> Result<Vec<SessionId>, Memory>
    ensures { IfOk result (λ ids. IsOrdered nat_cmp table.now
        × (ids.items ≡ keys table.now)) }
{
    let mut ids = Vec::new(alloc);
    for (id, _) in table {
        ids.push(SessionId::new(*id))?;
    }
    Ok(ids)
}
