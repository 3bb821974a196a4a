//! Events of watched nodes.

ghost use Rattle.std.specs.Prelude.{◌≡◌, ◌++◌, ◌∷◌, [], IfOk, OnOk};
ghost use Rattle.zwatches.specs.changes.Events.{event};
ghost use Rattle.zresponses.specs.effects.Looking as table;
ghost use Rattle.zresponses.specs.effects.Looking.{seen_at};

use std::alloc::Global;
use zalloc::Memory;
use zcalls::{Refusal, Reply};
use zpath::Path;
use ztree::Zxid;
use zwatches::changes::{Event, EventKind};

/// Returns the events of the nodes that the change of this zxid deleted, and of those that lost a
/// child in it.
pub(crate) fn seen(
    alloc: Global,
    zxid: Zxid,
    paths: &[Path],
    replies: &[Reply],
) -> Result<Vec<Event>, Memory>
    ensures { IfOk result (λ events. events.items ≡ table.seen zxid paths.now replies.now) }
{
    let mut events = Vec::new(alloc);
    for index in 0..paths.len().min(replies.len()) {
        see(zxid, &paths[index], &replies[index], &mut events)?;
    }
    Ok(events)
}

// Adds the events at a path.
fn see(zxid: Zxid, path: &Path, reply: &Reply, events: &mut Vec<Event>) -> Result<(), Memory>
    ensures { OnOk result
        (events.new.items ≡ events.old.items ++ seen_at zxid path.now reply.now) }
{
    match reply {
        Reply::Refused(Refusal::NoNode) => add(EventKind::NodeDeleted, path, events),
        Reply::Exists(stat) if stat.pzxid == zxid => {
            add(EventKind::NodeChildrenChanged, path, events)
        }
        _ => Ok(()),
    }
}

// Adds an event.
fn add(kind: EventKind, path: &Path, events: &mut Vec<Event>) -> Result<(), Memory>
    ensures { OnOk result (events.new.items ≡ events.old.items ++ event kind path.now ∷ []) }
{
    let path = path.clone()?;
    events.push(Event { kind, path })?;
    Ok(())
}
