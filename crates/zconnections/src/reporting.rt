//! Notifications of events.

ghost use Rattle.std.specs.Prelude.{◌≡◌, IfOk, OnOk};
ghost use Rattle.zwatches.specs.Events as watch;
ghost use Rattle.zconnections.specs.Tables.{sent};
ghost use Rattle.zconnections.specs.Reporting.{event_frame, in_order, sent_on, reported, reported_all};
ghost use Rattle.zconnections.specs.Reporting.{unwatched};

use crate::framing::event_frame;
use crate::tables::Tables;
use zalloc::Memory;
use zwatches::changes::Event;

impl Tables {
    /// Sends events, in order, to the connections whose watches they fire. These watches are
    /// removed, except persistent ones.
    pub fn report_all(&mut self, events: &[Event]) -> Result<(), Memory>
        ensures { OnOk result (self.new ≡ reported_all events.now self.old) }
    {
        for event in events {
            self.tell(event)?;
        }
        Ok(())
    }

    /// Queues an event for a connection. Nothing is queued if it is closing.
    pub fn send_event(&mut self, connection: u32, event: &Event) -> Result<(), Memory>
        ensures { OnOk result (self.new ≡ sent connection (event_frame event.now) self.old) }
    {
        let frame = event_frame(self.alloc, event)?;
        self.send(connection, frame)
    }

    // Sends an event to the connections whose watches it fires.
    fn tell(&mut self, event: &Event) -> Result<(), Memory>
        ensures { OnOk result (self.new ≡ reported event.now self.old) }
    {
        let connections = self.fire(event)?;
        self.send_on(&connections, event)
    }

    // Fires the watches of an event, and returns their connections.
    fn fire(&mut self, event: &Event) -> Result<Vec<u32>, Memory>
        ensures connections { IfOk result (λ connections. connections.items
            ≡ in_order (watch.reported self.old.watches event.now.kind event.now.path)) }
        ensures rest { OnOk result (self.new ≡ unwatched event.now self.old) }
    {
        self.watches.changed(event.kind, &event.path)
    }

    // Queues an event for these connections.
    fn send_on(&mut self, connections: &[u32], event: &Event) -> Result<(), Memory>
        ensures { OnOk result
            (self.new ≡ sent_on connections.now (event_frame event.now) self.old) }
    {
        for connection in connections {
            self.send_event(*connection, event)?;
        }
        Ok(())
    }
}
