//! Calls that are invoked, and calls that are sent once more.

ghost use Rattle.std.specs.Prelude.{◌≡◌, [], IfNone, IfOk, IfSome, OnErr};
ghost use Rattle.zcalls.specs.declared.call.Call.{Call};
ghost use Rattle.zprotocol.specs.declared.world.event.Event.TheVariants.{Begin, Retry};
ghost use Rattle.zworld.specs.support.Giving.{begun_number};
ghost use Rattle.zworld.specs.support.Stepped.{CanHappen, Goes, HasStepped, IsIdle};

use crate::did::{Did, IdleCause};
use crate::processes::Processes;
use zactor::{ActFault, Done, Handed, Input};
use zalloc::Memory;
use zcalls::{Call, CallNumber, ClientId};
use zprotocol::Process;
use zprotocol::world::CallEvent;

impl Processes {
    /// A client invokes a call, if it can. The room for the history and the copy of the call are
    /// allocated first.
    pub(crate) fn begin(
        &mut self,
        client: ClientId,
        call: Call,
        seen: &mut Vec<CallEvent>,
    ) -> Result<Did, Memory>
        ensures stepped { IfOk result
            (Goes self.old self.new (Begin client call) seen.old seen.new) }
        ensures silent { OnErr result (seen.new.items ≡ seen.old.items) }
        ensures needed { OnErr result (CanHappen self.old (Begin client call)) }
    {
        if let Some(cause) = self.begin_cause(client) {
            drop(call);
            return Ok(Did::Idle(cause));
        }
        let Ok(()) = seen.reserve(1) else {
            drop(call);
            return Err(Memory);
        };
        let Ok(reported) = call.copied(self.alloc) else {
            drop(call);
            return Err(Memory);
        };
        let mut handed = Handed::Nothing;
        let done = self.give(&Process::Client(client), Input::Begin(call), &mut handed);
        drop(handed);
        let done = match done {
            Ok(done) => done,
            Err(fault) => {
                drop(fault);
                drop(reported);
                return Err(Memory);
            }
        };
        // Nothing else becomes of a call that can be invoked.
        let Some(number) = begun_number(done) else {
            unreachable!();
        };
        seen.push_reserved(CallEvent::Begin(client, number, reported));
        Ok(Did::Done)
    }

    // Returns why a client can't invoke a call now.
    fn begin_cause(&self, client: ClientId) -> Option<IdleCause>
        ensures can { IfNone result ((call : Call) → CanHappen self.now (Begin client call)) }
        ensures cannot { IfSome result
            (λ why. (call : Call) → IsIdle self.now (Begin client call) why) }
    {
        if client.number() >= self.clients() {
            return Some(IdleCause::Nothing);
        }
        let Some(core) = self.actors[Process::Client(client).place()].as_client() else {
            unreachable!();
        };
        match core.begin_fault() {
            Some(fault) => Some(IdleCause::Begin(fault)),
            None => None,
        }
    }

    /// A client sends its outstanding call once more.
    pub(crate) fn retry(&mut self, client: ClientId) -> Result<Did, Memory>
        ensures stepped { IfOk result
            (λ did. HasStepped self.old self.new (Retry client) did []) }
        ensures needed { OnErr result (CanHappen self.old (Retry client)) }
    {
        let mut handed = Handed::Nothing;
        let done = self.give(&Process::Client(client), Input::Retry, &mut handed);
        drop(handed);
        match done {
            Ok(done) => {
                drop(done);
                Ok(Did::Done)
            }
            Err(ActFault::Refused(_)) => Ok(Did::Idle(IdleCause::Nothing)),
            Err(ActFault::Memory) => Err(Memory),
        }
    }
}

// Returns the number of a call that began.
fn begun_number(done: Done) -> Option<CallNumber>
    ensures { result ≡ begun_number done }
{
    match done {
        Done::Began(number) => Some(number),
        Done::Acted | Done::Unheard | Done::Stopped | Done::Left | Done::Answered(_) => None,
    }
}
