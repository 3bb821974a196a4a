//! The end of connections.

ghost use Rattle.std.specs.Prelude.{◌≡◌, OnOk};
ghost use Rattle.zconnections.specs.Tables.{closed, closing, connection_of, ended, moved, parted};
ghost use Rattle.zconnections.specs.Tables.{without_seat};

use crate::buffers::Chunk;
use crate::tables::Tables;
use zalloc::Memory;
use ztree::SessionId;

impl Tables {
    /// Closes a connection once all queued chunks are sent. Nothing more is read.
    pub fn close(&mut self, connection: u32) -> Result<(), Memory>
        ensures { OnOk result (self.new ≡ closed connection self.old) }
    {
        if !self.is_open(connection) {
            return Ok(());
        }
        self.shut(connection)
    }

    /// Removes a connection that ended, and the chunks queued for it.
    pub fn end(&mut self, connection: u32)
        ensures { self.new ≡ ended connection self.old }
    {
        self.part(connection);
        self.streams.end(connection);
        self.outbox.forget(connection);
    }

    // Closes the connection that a session has.
    pub(crate) fn move_away(&mut self, session: SessionId) -> Result<(), Memory>
        ensures { OnOk result (self.new ≡ moved session self.old) }
    {
        match self.connection_of(session) {
            Some(connection) => self.close(connection),
            None => Ok(()),
        }
    }

    // Returns the connection that a session has.
    fn connection_of(&self, session: SessionId) -> Option<u32>
        ensures { result ≡ connection_of self.now.attachments session }
    {
        let attachment = self.attachments.attachment(session)?;
        attachment.connection
    }

    // Closes a connection, if it is open.
    fn shut(&mut self, connection: u32) -> Result<(), Memory>
        ensures { OnOk result (self.new ≡ closing connection self.old) }
    {
        self.part(connection);
        self.streams.close(connection);
        self.outbox.push(Chunk {
            connection,
            bytes: Vec::new(self.alloc),
            is_last: true,
        })
    }

    // Detaches a connection from its session, and removes its watches.
    fn part(&mut self, connection: u32)
        ensures { self.new ≡ parted connection self.old }
    {
        self.unseat(self.session(connection));
        self.watches.forget(connection);
    }

    // Detaches a session, if there is one.
    fn unseat(&mut self, session: Option<SessionId>)
        ensures { self.new ≡ record self.old { attachments = without_seat session self.old } }
    {
        if let Some(session) = session {
            self.attachments.leave(session);
        }
    }
}
