//! Sessions and their connections.

ghost use Rattle.std.specs.Prelude.{◌≡◌, IfOk, OnOk};
ghost use Rattle.std.specs.FinMap as finite;
ghost use Rattle.zconnections.specs.attachments.Attachments.{all_rested, restored_attachment, touched};
ghost use Rattle.zconnections.specs.attachments.Attachments.{touched_ids, with_changed};
ghost use Rattle.zconnections.specs.Tables.{seated, attachment, taken_up};

use crate::buffers::Phase;
use crate::tables::Tables;
use zalloc::Memory;
use ztree::SessionId;

impl Tables {
    /// Adds a session that was opened on a connection.
    pub fn sit(&mut self, session: SessionId, connection: u32) -> Result<(), Memory>
        ensures { OnOk result (self.new ≡ attachment session connection self.old) }
    {
        self.streams.set_phase(connection, Phase::Speaking(session));
        self.attachments.open(session, connection)
    }

    /// Adds a session that was opened earlier, and has no connection now.
    pub fn restore(&mut self, session: SessionId) -> Result<(), Memory>
        ensures { OnOk result (self.new ≡ record self.old {
          attachments = finite.insert self.old.attachments session restored_attachment;
        }) }
    {
        self.attachments.restore(session)
    }

    /// Attaches a session to a connection. Its old connection is closed.
    pub fn take_up(&mut self, session: SessionId, connection: u32) -> Result<(), Memory>
        ensures { OnOk result (self.new ≡ taken_up session connection self.old) }
    {
        self.move_away(session)?;
        self.seat(session, connection)
    }

    /// Notes that a session sent a request.
    pub fn touch(&mut self, session: SessionId)
        ensures { self.new
            ≡ record self.old { attachments = with_changed touched self.old.attachments session } }
    {
        self.attachments.touch(session);
    }

    /// Returns the sessions that sent a request since the last `rest` but one, in rising order.
    pub fn touched(&self) -> Result<Vec<SessionId>, Memory>
        ensures { IfOk result (λ ids. ids.items ≡ touched_ids self.now.attachments) }
    {
        self.attachments.touched()
    }

    /// For each session, a request since the last `rest` is one before it.
    pub fn rest(&mut self)
        ensures { self.new ≡ record self.old { attachments = all_rested self.old.attachments } }
    {
        self.attachments.rest();
    }

    // Attaches a session to a connection.
    fn seat(&mut self, session: SessionId, connection: u32) -> Result<(), Memory>
        ensures { OnOk result (self.new ≡ seated session connection self.old) }
    {
        self.streams.set_phase(connection, Phase::Speaking(session));
        self.attachments.seat(session, connection)
    }
}
