//! Orders to the master, which are rare.

ghost use Rattle.std.specs.Prelude.{[], IfOk, OnErr};
ghost use Rattle.zprotocol.specs.declared.world.event.Event.TheVariants as event;
ghost use Rattle.zworld.specs.support.Stepped.{CanHappen, HasStepped};

use crate::did::{Did, IdleCause};
use crate::processes::Processes;
use zactor::{ActFault, Handed, Input, Refusal};
use zalloc::Memory;
use zmaster::Order;
use zprotocol::Process;

impl Processes {
    /// A server is asked to join after the tail, or a member is ordered to leave.
    #[cold]
    #[inline(never)]
    pub(crate) fn order(&mut self, order: Order) -> Result<Did, Memory>
        ensures stepped { IfOk result
            (λ did. HasStepped self.old self.new (event.Order order) did []) }
        ensures needed { OnErr result (CanHappen self.old (event.Order order)) }
    {
        let mut handed = Handed::Nothing;
        let done = self.give(&Process::Master, Input::Obey(order), &mut handed);
        drop(handed);
        match done {
            Ok(done) => {
                drop(done);
                Ok(Did::Done)
            }
            Err(ActFault::Refused(Refusal::Order(fault))) => Ok(Did::Idle(IdleCause::Order(fault))),
            Err(ActFault::Refused(_)) => unreachable!(),
            Err(ActFault::Memory) => Err(Memory),
        }
    }
}
