//! Servers that stop for good. This is rare, so it is out of line.

ghost use Rattle.std.specs.Prelude.{◌≡◌, ℕ, IfErr, IfOk, OnErr};
ghost use Rattle.zserver.specs.Server.{TreeOut};
ghost use Rattle.zactor.specs.declared.input.Input.TheVariants.{Stop};
ghost use Rattle.zactor.specs.declared.kind.Kind.TheVariants.{Gone};
ghost use Rattle.zactor.specs.Acting.{Acts, IsActFault};
ghost use Rattle.zactor.specs.support.Kinds.{GoesOn, standing_of};

use crate::act_fault::ActFault;
use crate::done::Done;
use crate::kind::Kind;
use crate::refusal::Refusal;
use std::mem::replace;

impl Kind {
    /// Stops for good. It allocates nothing and appends no message.
    #[cold]
    #[inline(never)]
    pub(crate) fn stop(&mut self) -> Result<Done, ActFault>
        requires goes { GoesOn self.old }
        ensures goes { GoesOn self.new }
        ensures acted { (out : TreeOut) → IfOk result
            (Acts (standing_of self.old) (standing_of self.new) Stop out out) }
        ensures fault { IfErr result
            (λ fault. (room : ℕ) → IsActFault (standing_of self.old) Stop room fault) }
        ensures same { OnErr result (standing_of self.new ≡ standing_of self.old) }
    {
        match self {
            Kind::Server(_) => {
                self.end();
                Ok(Done::Stopped)
            }
            Kind::Master(_) | Kind::Client(_) | Kind::Gone => {
                Err(ActFault::Refused(Refusal::NotAccepted))
            }
        }
    }

    /// Drops what it held, as a server that has stopped for good.
    #[cold]
    #[inline(never)]
    pub(crate) fn end(&mut self)
        ensures { self.new ≡ Gone }
    {
        drop(replace(self, Kind::Gone));
    }
}
