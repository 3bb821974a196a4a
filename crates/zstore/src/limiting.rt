//! Other limits for a store's tree.

ghost use Rattle.std.specs.Prelude.{◌≡◌, ◌≤◌, None, IfErr, OnOk, OnErr};
ghost use Rattle.ztree.specs.Lawful.{AllSessions};
ghost use Rattle.zstore.specs.Limiting.{IsFaultOf};
ghost use Rattle.zstore.specs.Restored.{with_limits, FitsWithin};
ghost use Rattle.zstore.specs.StoreView.{KeepsIds};
ghost use Rattle.zstore.specs.support.Timeouts.{HasTimeoutWithin};

use crate::limit_fault::LimitFault;
use crate::store::Store;
use ztree::{SessionId, TreeLimits};

impl Store {
    /// Sets the limits of the tree, and gives up the savepoint. Refuses limits within which the
    /// tree doesn't fit, and says which one and what it needs. If they are refused, nothing has
    /// changed.
    pub fn set_limits(&mut self, limits: TreeLimits) -> Result<(), LimitFault>
        ensures tree { OnOk result (self.new.tree ≡ with_limits self.old.tree limits) }
        ensures same { OnOk result (KeepsIds self.old self.new) }
        ensures unmarked { OnOk result (self.new.marked ≡ None) }
        ensures fits { OnOk result (FitsWithin self.old.tree limits) }
        ensures fault { IfErr result (IsFaultOf self.old.tree limits) }
        ensures err { OnErr result (self.new ≡ self.old) }
    {
        if !limits.is_allowed() {
            return Err(LimitFault::NotLimits);
        }
        if self.nodes() > limits.nodes {
            return Err(LimitFault::Nodes(self.nodes()));
        }
        if self.sessions() > limits.sessions {
            return Err(LimitFault::Sessions(self.sessions()));
        }
        self.are_timeouts_within(limits)?;
        self.limits = limits;
        self.log.stop(&mut self.nodes);
        Ok(())
    }

    // Fails with the timeout of a session that is above the limit, if there is one.
    fn are_timeouts_within(&self, limits: TreeLimits) -> Result<(), LimitFault>
        ensures within { OnOk result
            (AllSessions (λ id s. s.timeout ≤ limits.timeout) self.now.tree.sessions) }
        ensures fault { IfErr result (IsFaultOf self.now.tree limits) }
    {
        let ids = self.session_ids()?;
        for id in &ids {
            self.is_timeout_within(*id, limits)?;
        }
        Ok(())
    }

    // Fails with the session's timeout, if it is above the limit.
    fn is_timeout_within(&self, id: SessionId, limits: TreeLimits) -> Result<(), LimitFault>
        ensures within { OnOk result (HasTimeoutWithin self.now.tree.sessions limits.timeout id) }
        ensures fault { IfErr result (IsFaultOf self.now.tree limits) }
    {
        match self.session(id) {
            Some(session) if session.timeout > limits.timeout => {
                Err(LimitFault::Timeout(session.timeout))
            }
            _ => Ok(()),
        }
    }
}
