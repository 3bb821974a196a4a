//! Making calls.
//!
//! # Why
//!
//! Updates are recorded only if the caller stores them (`is_kept`), and the caller takes them. Else
//! a front's memory would grow with each update.

ghost use Rattle.std.specs.Prelude.{◌≡◌, ◌++◌, [], ◌∷◌, IfOk, OnOk};
ghost use Rattle.zcalls.specs.declared.call.Call.TheVariants as call;
ghost use Rattle.zprotocol.specs.world.PlainTree.{serve};
ghost use Rattle.zfront.specs.Front.{asked, replies_to};

use crate::inner::Inner;
use zalloc::Memory;
use zcalls::{Call, Reply, Update};
use ztree::Zxid;
use ztree_service::TreeService;

impl<T: TreeService> Inner<T> {
    // Makes calls in order, and returns their replies.
    pub(crate) fn ask(&mut self, calls: &[Call]) -> Result<Vec<Reply>, Memory>
        ensures replies { IfOk result
            (λ replies. replies.items ≡ replies_to calls.now self.old) }
        ensures asked { OnOk result (self.new ≡ asked calls.now self.old) }
    {
        let mut replies = Vec::new(self.alloc);
        for call in calls {
            let reply = self.ask_one(call)?;
            replies.push(reply)?;
        }
        Ok(replies)
    }

    // Returns the zxid of the last change.
    pub(crate) fn last_change(&self) -> Result<Zxid, Memory>
        ensures { IfOk result (λ zxid. zxid ≡ self.now.tree.zxid) }
    {
        let (zxid, _) = self.service.clock()?;
        Ok(zxid)
    }

    // Makes a call.
    fn ask_one(&mut self, call: &Call) -> Result<Reply, Memory>
        ensures reply { IfOk result (λ reply. reply ≡ (serve self.old.tree 0 call.now).1) }
        ensures asked { OnOk result (self.new ≡ asked (call.now ∷ []) self.old) }
    {
        match call {
            Call::Update(update) => self.apply(update),
            Call::Query(query) => self.service.ask(query),
        }
    }

    // Applies an update. Records it if updates are recorded.
    fn apply(&mut self, update: &Update) -> Result<Reply, Memory>
        ensures reply { IfOk result
            (λ reply. reply ≡ (serve self.old.tree 0 (call.Update update.now)).1) }
        ensures asked { OnOk result
            (self.new ≡ asked (call.Update update.now ∷ []) self.old) }
    {
        let copy = update.copied(self.alloc)?;
        let (reply, update) = self.service.apply(copy)?;
        if self.is_kept {
            self.made.push(update)?;
        }
        Ok(reply)
    }
}
