//! Orders to the master, which are rare.

ghost use Rattle.std.specs.Prelude.{◌≡◌, IfErr, IfOk, OnErr};
ghost use Rattle.zactor.specs.declared.input.Input.TheVariants.{Obey};
ghost use Rattle.zactor.specs.Acting.{Acts, IsActFault};
ghost use Rattle.zactor.specs.support.Kinds.{GoesOn, standing_of};

use crate::act_fault::ActFault;
use crate::done::Done;
use crate::kind::Kind;
use crate::refusal::Refusal;
use zmaster::MAX_POSTS;
use zprotocol::{Order, Out};
use zserver::Snapshot;

impl Kind {
    /// Obeys an order. Room is reserved only for an order that isn't refused.
    #[cold]
    #[inline(never)]
    pub(crate) fn obey(&mut self, order: Order, out: &mut Out<Snapshot>) -> Result<Done, ActFault>
        requires goes { GoesOn self.old }
        ensures goes { GoesOn self.new }
        ensures acted { IfOk result (Acts (standing_of self.old) (standing_of self.new)
            (Obey order) out.old out.new) }
        ensures fault { IfErr result
            (IsActFault (standing_of self.old) (Obey order) out.old.room) }
        ensures same { OnErr result (standing_of self.new ≡ standing_of self.old) }
        ensures silent { OnErr result (out.new.posts ≡ out.old.posts) }
    {
        let Kind::Master(master) = self else {
            return Err(ActFault::Refused(Refusal::NotAccepted));
        };
        if let Some(fault) = master.order_fault(&order) {
            return Err(ActFault::Refused(Refusal::Order(fault)));
        }
        order.keeps_in_range();
        let Ok(()) = out.reserve(MAX_POSTS) else {
            return Err(ActFault::Memory);
        };
        match master.order(&order, out) {
            Ok(()) => Ok(Done::Acted),
            Err(fault) => Err(ActFault::Refused(Refusal::Order(fault))),
        }
    }
}
