//! The events of updates.

ghost use Rattle.std.specs.Prelude.{◌≡◌, ◌++◌, ◌∷◌, [], IfOk, OnOk};
ghost use Rattle.ztree.specs.Tree.{parent_of};
ghost use Rattle.zwatches.specs.changes.Events as table;
ghost use Rattle.zwatches.specs.changes.Events.{event, with_parent, part_events, parts_events};

use crate::changes::event::{Event, Events};
use std::alloc::Global;
use zalloc::Memory;
use zcalls::{Part, PartReply, Reply, Update};
use zjute::EventKind;
use zpath::Path;

/// Returns the events of an update, by the reply to it, in the order in which they are sent. The
/// only error is out of memory.
pub fn events_of(alloc: Global, update: &Update, reply: &Reply) -> Result<Events, Memory>
    ensures { IfOk result (λ events. events ≡ table.events_of update.now reply.now) }
{
    let mut events = Vec::new(alloc);
    add_all(update, reply, &mut events)?;
    Ok(Events::new(events))
}

// Adds the events of an update.
fn add_all(update: &Update, reply: &Reply, events: &mut Vec<Event>) -> Result<(), Memory>
    ensures { OnOk result
        (events.new.items ≡ events.old.items ++ table.events_of update.now reply.now) }
{
    match (update, reply) {
        (Update::Create(_), Reply::Created(path)) => {
            add_with_parent(EventKind::NodeCreated, path, events)
        }
        (Update::Delete(delete), Reply::Deleted) => {
            add_with_parent(EventKind::NodeDeleted, &delete.path, events)
        }
        (Update::SetData(set), Reply::Set(_)) => {
            add(EventKind::NodeDataChanged, &set.path, events)
        }
        (Update::Multi(parts), Reply::Multi(replies)) => {
            add_parts(parts.as_slice(), replies.as_slice(), events)
        }
        _ => Ok(()),
    }
}

// Adds an event.
fn add(kind: EventKind, path: &Path, events: &mut Vec<Event>) -> Result<(), Memory>
    ensures { OnOk result (events.new.items ≡ events.old.items ++ event kind path.now ∷ []) }
{
    let path = path.clone()?;
    events.push(Event { kind, path })?;
    Ok(())
}

// Adds the events of a node that was created or deleted.
fn add_with_parent(kind: EventKind, path: &Path, events: &mut Vec<Event>) -> Result<(), Memory>
    ensures { OnOk result (events.new.items ≡ events.old.items ++ with_parent kind path.now) }
{
    add(kind, path, events)?;
    let parent = parent_path(path)?;
    add(EventKind::NodeChildrenChanged, &parent, events)
}

// Returns the path of the parent. The root is its own parent.
fn parent_path(path: &Path) -> Result<Path, Memory>
    ensures { IfOk result (λ parent. parent ≡ parent_of path.now) }
{
    match path.parent()? {
        Some(parent) => Ok(parent),
        None => Ok(Path::root()),
    }
}

// Adds the events of the parts of a multi.
fn add_parts(parts: &[Part], replies: &[PartReply], events: &mut Vec<Event>) -> Result<(), Memory>
    ensures { OnOk result
        (events.new.items ≡ events.old.items ++ parts_events parts.now replies.now) }
{
    for place in 0..parts.len().min(replies.len()) {
        add_part(&parts[place], &replies[place], events)?;
    }
    Ok(())
}

// Adds the events of a part.
fn add_part(part: &Part, reply: &PartReply, events: &mut Vec<Event>) -> Result<(), Memory>
    ensures { OnOk result (events.new.items ≡ events.old.items ++ part_events part.now reply.now) }
{
    match (part, reply) {
        (Part::Create(_), PartReply::Created(path)) => {
            add_with_parent(EventKind::NodeCreated, path, events)
        }
        (Part::Delete(delete), PartReply::Deleted) => {
            add_with_parent(EventKind::NodeDeleted, &delete.path, events)
        }
        (Part::SetData(set), PartReply::Set(_)) => {
            add(EventKind::NodeDataChanged, &set.path, events)
        }
        _ => Ok(()),
    }
}
