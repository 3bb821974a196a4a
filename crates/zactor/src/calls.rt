//! Calls that are invoked, and calls that are sent once more.

ghost use Rattle.std.specs.Prelude.{◌≡◌, IfErr, IfOk, OnErr};
ghost use Rattle.zactor.specs.declared.input.Input.TheVariants.{Begin, Retry};
ghost use Rattle.zactor.specs.Acting.{Acts, IsActFault};
ghost use Rattle.zactor.specs.support.Kinds.{fault_of, GoesOn, standing_of};

use crate::act_fault::ActFault;
use crate::done::Done;
use crate::kind::Kind;
use crate::refusal::Refusal;
use zalloc::Memory;
use zcalls::Call;
use zprotocol::{BeginFault, Out};
use zserver::Snapshot;

impl Kind {
    /// Invokes a call.
    #[inline(always)]
    pub(crate) fn begin(&mut self, call: Call, out: &mut Out<Snapshot>) -> Result<Done, ActFault>
        requires goes { GoesOn self.old }
        ensures goes { GoesOn self.new }
        ensures acted { IfOk result (Acts (standing_of self.old) (standing_of self.new)
            (Begin call) out.old out.new) }
        ensures fault { IfErr result
            (IsActFault (standing_of self.old) (Begin call) out.old.room) }
        ensures same { OnErr result (standing_of self.new ≡ standing_of self.old) }
        ensures silent { OnErr result (out.new.posts ≡ out.old.posts) }
    {
        let Kind::Client(client) = self else {
            drop(call);
            return Err(ActFault::Refused(Refusal::NotAccepted));
        };
        match client.begin(call, out) {
            Ok(number) => Ok(Done::Began(number)),
            Err(fault) => Err(fault_of(fault)),
        }
    }

    /// Sends the outstanding call once more.
    #[inline(always)]
    pub(crate) fn retry(&self, out: &mut Out<Snapshot>) -> Result<Done, ActFault>
        ensures acted { IfOk result
            (Acts (standing_of self.now) (standing_of self.now) Retry out.old out.new) }
        ensures fault { IfErr result (IsActFault (standing_of self.now) Retry out.old.room) }
        ensures silent { OnErr result (out.new.posts ≡ out.old.posts) }
    {
        let Kind::Client(client) = self else {
            return Err(ActFault::Refused(Refusal::NotAccepted));
        };
        if client.outstanding().is_none() {
            return Err(ActFault::Refused(Refusal::NotAccepted));
        }
        match client.retry(out) {
            Ok(_) => Ok(Done::Acted),
            Err(Memory) => Err(ActFault::Memory),
        }
    }
}

// Why a client didn't invoke a call.
fn fault_of(fault: BeginFault) -> ActFault
    ensures { result ≡ fault_of fault }
{
    match fault {
        BeginFault::Memory => ActFault::Memory,
        BeginFault::Busy | BeginFault::Exhausted => ActFault::Refused(Refusal::Begin(fault)),
    }
}
