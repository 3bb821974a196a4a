//! Other limits for a machine's tree.

ghost use Rattle.std.specs.Prelude.{◌≡◌, false, IfErr, OnOk, OnErr};
ghost use Rattle.zstore.specs.Restored.{with_limits, FitsWithin};
ghost use Rattle.zstore.specs.Limiting.{IsFaultOf};
ghost use Rattle.zops.specs.Restored.{with_plain};

use crate::machine::Machine;
use zstore::{LimitFault, TreeLimits};

impl Machine {
    /// Sets the limits of the tree. Refuses limits within which the tree doesn't fit, and says
    /// which one and what it needs. If they are refused, nothing has changed.
    pub fn set_limits(&mut self, limits: TreeLimits) -> Result<(), LimitFault>
        requires whole { self.old.is_broken ≡ false }
        ensures set { OnOk result (self.new ≡ record self.old {
          state = with_plain self.old.state
              (with_limits self.old.state.service.plain limits);
        }) }
        ensures fits { OnOk result (FitsWithin self.old.state.service.plain limits) }
        ensures fault { IfErr result (IsFaultOf self.old.state.service.plain limits) }
        ensures err { OnErr result (self.new ≡ self.old) }
    {
        self.store.set_limits(limits)
    }
}
