//! An event, and lists of them.

ghost use Rattle.std.specs.Prelude.{◌≡◌};

use std::marker::Model;
use zjute::EventKind;
use zpath::Path;

/// What happened to a node.
#[derive(Drop)]
pub struct Event {
    /// What happened: the node was created, deleted or written, or its children changed.
    pub kind: EventKind,
    /// The path of the node.
    pub path: Path,
}

/// Events, in the order in which they are sent.
#[derive(Drop)]
pub struct Events {
    events: Vec<Event>,
}

impl Model for Events {
    ghost use Rattle.std.specs.Prelude.{List};
    ghost use Rattle.zwatches.specs.declared.changes.event.Event.{Event};

    ghost Value = { List Event };

    ghost view = { λ events. events.events.items };
}

impl Events {
    /// Wraps the events.
    pub fn new(events: Vec<Event>) -> Events
        ensures { result ≡ events.items }
    {
        Events { events }
    }

    /// Returns the events in order.
    pub fn as_slice(&self) -> &[Event]
        ensures { result.now ≡ self.now }
    {
        &self.events
    }

    /// Returns the events, and consumes the list.
    pub fn into_vec(self) -> Vec<Event>
        ensures { result.items ≡ self }
    {
        self.events
    }
}
