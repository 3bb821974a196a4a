//! The table of attachments: a finite map from session ids.

ghost use Rattle.std.specs.Prelude.{◌≡◌, IfOk, OnErr, OnOk};
ghost use Rattle.std.specs.FinMap as finite;
ghost use Rattle.zconnections.specs.attachments.Attachments.{all_rested, rested, touched_ids, with_changed};

use crate::attachments::attachment::Attachment;
use crate::attachments::listing::{all_among, touched_among};
use std::alloc::Global;
use std::collections::BTreeMap;
use std::marker::Model;
use zalloc::Memory;
use ztree::SessionId;

// An attachment under each session's id.
#[derive(Drop)]
pub(crate) struct AttachmentTable {
    alloc: Global,
    table: BTreeMap<u64, Attachment>,
}

impl Model for AttachmentTable {
    ghost use Rattle.std.specs.FinMap as finite;
    ghost use Rattle.zconnections.specs.attachments.Attachments.{AttachmentsView};
    ghost use Rattle.zconnections.specs.attachments.support.Codes.{coded_attachments};

    ghost Value = { AttachmentsView };

    ghost coded = { coded_attachments };

    ghost view = { λ s. finite.from_entries s.table.entries };
}

impl AttachmentTable {
    // Returns an empty table. Allocates nothing.
    pub(crate) fn new(alloc: Global) -> AttachmentTable
        ensures { result ≡ finite.empty }
    {
        AttachmentTable {
            alloc,
            table: BTreeMap::new(alloc),
        }
    }

    // Returns the number of attachments.
    pub(crate) fn len(&self) -> usize
        ensures { result ≡ finite.len self.now }
    {
        self.table.len()
    }

    // Returns the attachment of a session, if it exists.
    pub(crate) fn get(&self, id: SessionId) -> Option<Attachment>
        ensures { result ≡ finite.get self.now id }
    {
        self.table.get(&id.number()).copied()
    }

    // Adds an attachment. After `Memory` nothing has changed.
    pub(crate) fn insert(&mut self, id: SessionId, attachment: Attachment) -> Result<(), Memory>
        ensures ok { OnOk result (self.new ≡ finite.insert self.old id attachment) }
        ensures err { OnErr result (self.new ≡ self.old) }
    {
        self.table.insert(id.number(), attachment)?;
        Ok(())
    }

    // Replaces the attachment of a session, if it exists. Allocates nothing.
    pub(crate) fn put(&mut self, id: SessionId, attachment: Attachment)
        ensures { self.new ≡ with_changed (λ _. attachment) self.old id }
    {
        if let Some(place) = self.table.get_mut(&id.number()) {
            *place = attachment;
        }
    }

    // Removes the attachment of a session, if it exists.
    pub(crate) fn remove(&mut self, id: SessionId)
        ensures { self.new ≡ finite.remove self.old id }
    {
        self.table.remove(&id.number());
    }

    // For each session, a request since the last `rest` is one before it. Allocates nothing.
    pub(crate) fn rest(&mut self)
        ensures { self.new ≡ all_rested self.old }
    {
        self.table.retain(|_, attachment| {
            *attachment = rested(*attachment);
            true
        });
    }

    // Returns the ids of the touched sessions, in order; or `Memory`.
    pub(crate) fn touched(&self) -> Result<Vec<SessionId>, Memory>
        ensures { IfOk result (λ ids. ids.items ≡ touched_ids self.now) }
    {
        touched_among(self.alloc, &self.table)
    }

    // Returns the ids of all sessions, in order; or `Memory`.
    pub(crate) fn ids(&self) -> Result<Vec<SessionId>, Memory>
        ensures { IfOk result (λ ids. ids.items ≡ finite.keys self.now) }
    {
        all_among(self.alloc, &self.table)
    }
}

// Returns the attachment after a `rest`.
fn rested(attachment: Attachment) -> Attachment
    ensures { result ≡ rested attachment }
{
    Attachment {
        is_touched: false,
        was_touched: attachment.is_touched,
        ..attachment
    }
}
