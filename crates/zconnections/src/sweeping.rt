//! The end of sessions.

ghost use Rattle.std.specs.Prelude.{◌≡◌, IfOk, OnOk};
ghost use Rattle.std.specs.FinMap as finite;
ghost use Rattle.zconnections.specs.Sweeping.{made_one, some_made_one, swept, swept_all};

use crate::tables::Tables;
use zalloc::Memory;
use ztree::SessionId;

impl Tables {
    /// Returns the sessions in the tables, in rising order.
    pub fn session_ids(&self) -> Result<Vec<SessionId>, Memory>
        ensures { IfOk result (λ ids. ids.items ≡ finite.keys self.now.attachments) }
    {
        self.attachments.ids()
    }

    /// Closes the connections of these sessions, and removes the sessions. Returns whether one of
    /// them had made an ephemeral node.
    pub fn sweep(&mut self, ids: &[SessionId]) -> Result<bool, Memory>
        ensures swept { OnOk result (self.new ≡ swept_all ids.now self.old) }
        ensures made { IfOk result (λ made. made ≡ some_made_one self.old.attachments ids.now) }
    {
        let made = self.some_made_one(ids);
        self.sweep_all(ids)?;
        Ok(made)
    }

    // Returns whether one of these sessions made an ephemeral node.
    fn some_made_one(&self, ids: &[SessionId]) -> bool
        ensures { result ≡ some_made_one self.now.attachments ids.now }
    {
        for id in ids {
            if self.made_one(*id) {
                return true;
            }
        }
        false
    }

    // Returns whether a session made an ephemeral node.
    fn made_one(&self, id: SessionId) -> bool
        ensures { result ≡ made_one self.now.attachments id }
    {
        match self.attachments.attachment(id) {
            Some(attachment) => attachment.made_ephemeral,
            None => false,
        }
    }

    // Closes the connections of these sessions, and removes the sessions.
    fn sweep_all(&mut self, ids: &[SessionId]) -> Result<(), Memory>
        ensures { OnOk result (self.new ≡ swept_all ids.now self.old) }
    {
        for id in ids {
            self.sweep_one(*id)?;
        }
        Ok(())
    }

    // Closes the connection of a session, and removes the session.
    fn sweep_one(&mut self, id: SessionId) -> Result<(), Memory>
        ensures { OnOk result (self.new ≡ swept id self.old) }
    {
        self.move_away(id)?;
        self.attachments.remove(id);
        Ok(())
    }
}
