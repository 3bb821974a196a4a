//! The attachments of all sessions.
//!
//! # Why
//!
//! The tree alone knows which sessions exist. A session that no connection named yet is added when
//! one takes it. So a client can come back to a front that never opened its session.

ghost use Rattle.std.specs.Prelude.{◌≡◌, IfOk, OnErr, OnOk};
ghost use Rattle.std.specs.FinMap as finite;
ghost use Rattle.zconnections.specs.attachments.Attachments.{all_rested, left, new_attachment};
ghost use Rattle.zconnections.specs.attachments.Attachments.{restored_attachment};
ghost use Rattle.zconnections.specs.attachments.Attachments.{touched, touched_ids, with_changed, with_seat};
ghost use Rattle.zconnections.specs.attachments.Attachments.{with_ephemeral};

use crate::attachments::attachment::Attachment;
use crate::attachments::restored::restored;
use crate::attachments::table::AttachmentTable;
use std::alloc::Global;
use std::marker::Model;
use zalloc::Memory;
use ztree::SessionId;

/// The attachments of all sessions. Only `open`, `restore`, `seat`, `touched` and `ids` allocate.
#[derive(Drop)]
pub struct Attachments {
    table: AttachmentTable,
}

impl Model for Attachments {
    ghost use Rattle.zconnections.specs.attachments.Attachments.{AttachmentsView};
    ghost use Rattle.zconnections.specs.attachments.support.Codes.{coded_attachments};

    ghost Value = { AttachmentsView };

    ghost coded = { coded_attachments };

    ghost view = { λ s. s.table };
}

impl Attachments {
    /// Returns an empty table.
    pub fn new(alloc: Global) -> Attachments
        ensures { result ≡ finite.empty }
    {
        Attachments {
            table: AttachmentTable::new(alloc),
        }
    }

    /// Returns the number of sessions.
    pub fn count(&self) -> usize
        ensures { result ≡ finite.len self.now }
    {
        self.table.len()
    }

    /// Returns the attachment of a session, if it exists.
    pub fn attachment(&self, id: SessionId) -> Option<Attachment>
        ensures { result ≡ finite.get self.now id }
    {
        self.table.get(id)
    }

    /// Adds a session that a connection opens. After `Memory` nothing has changed.
    pub fn open(&mut self, id: SessionId, connection: u32) -> Result<(), Memory>
        ensures ok { OnOk result
            (self.new ≡ finite.insert self.old id (new_attachment connection)) }
        ensures err { OnErr result (self.new ≡ self.old) }
    {
        let attachment = Attachment {
            connection: Some(connection),
            is_touched: true,
            was_touched: false,
            made_ephemeral: false,
        };
        self.table.insert(id, attachment)
    }

    /// Adds a session that was opened earlier, and has no connection now. After `Memory` nothing
    /// has changed.
    pub fn restore(&mut self, id: SessionId) -> Result<(), Memory>
        ensures ok { OnOk result
            (self.new ≡ finite.insert self.old id restored_attachment) }
        ensures err { OnErr result (self.new ≡ self.old) }
    {
        self.table.insert(id, restored())
    }

    /// Attaches a session to a connection. An unknown session was opened earlier. After `Memory`
    /// nothing has changed.
    pub fn seat(&mut self, id: SessionId, connection: u32) -> Result<(), Memory>
        ensures ok { OnOk result (self.new ≡ with_seat self.old id connection) }
        ensures err { OnErr result (self.new ≡ self.old) }
    {
        let attachment = match self.table.get(id) {
            Some(attachment) => attachment,
            None => restored(),
        };
        let taken_up = Attachment {
            connection: Some(connection),
            is_touched: true,
            ..attachment
        };
        self.table.insert(id, taken_up)
    }

    /// Notes that a session sent a request, if it exists.
    pub fn touch(&mut self, id: SessionId)
        ensures { self.new ≡ with_changed touched self.old id }
    {
        if let Some(attachment) = self.table.get(id) {
            let touched = Attachment {
                is_touched: true,
                ..attachment
            };
            self.table.put(id, touched);
        }
    }

    /// Notes that a session made an ephemeral node, if it exists.
    pub fn note_ephemeral(&mut self, id: SessionId)
        ensures { self.new ≡ with_changed with_ephemeral self.old id }
    {
        if let Some(attachment) = self.table.get(id) {
            let noted = Attachment {
                made_ephemeral: true,
                ..attachment
            };
            self.table.put(id, noted);
        }
    }

    /// Detaches a session from its connection, if it exists.
    pub fn leave(&mut self, id: SessionId)
        ensures { self.new ≡ with_changed left self.old id }
    {
        if let Some(attachment) = self.table.get(id) {
            let left = Attachment {
                connection: None,
                ..attachment
            };
            self.table.put(id, left);
        }
    }

    /// Removes a session, if it exists.
    pub fn remove(&mut self, id: SessionId)
        ensures { self.new ≡ finite.remove self.old id }
    {
        self.table.remove(id);
    }

    /// Returns the ids of the sessions with a request since the last `rest` but one, in order; or
    /// `Memory`.
    pub fn touched(&self) -> Result<Vec<SessionId>, Memory>
        ensures { IfOk result (λ ids. ids.items ≡ touched_ids self.now) }
    {
        self.table.touched()
    }

    /// For each session, a request since the last `rest` is one before it.
    pub fn rest(&mut self)
        ensures { self.new ≡ all_rested self.old }
    {
        self.table.rest();
    }

    /// Returns the ids of all sessions, in order; or `Memory`.
    pub fn ids(&self) -> Result<Vec<SessionId>, Memory>
        ensures { IfOk result (λ ids. ids.items ≡ finite.keys self.now) }
    {
        self.table.ids()
    }
}
