//! Messages that are delivered, and requests that are lost.

ghost use Rattle.std.specs.Prelude.{◌≡◌, ◌++◌, [], IfOk, OnErr, OnOk};
ghost use Rattle.zprotocol.specs.declared.process.Process.TheVariants.{Client};
ghost use Rattle.zactor.specs.declared.done.Done.TheVariants.{Answered};
ghost use Rattle.zactor.specs.Acting.{reply_handed};
ghost use Rattle.zprotocol.specs.declared.world.event.Event.TheVariants.{Take, Ignore};
ghost use Rattle.zworld.specs.support.Stepped.{CanHappen, Goes, HasStepped};
ghost use Rattle.zprotocol.specs.world.Events.{front_is, is_request};
ghost use Rattle.zworld.specs.Held.{kept_world};
ghost use Rattle.zworld.specs.support.Giving.{did_of, IsReportedOf, reported_with};

use crate::did::{Did, IdleCause};
use crate::post::is_lost;
use crate::processes::Processes;
use zactor::{Done, Handed, Input};
use zalloc::Memory;
use zcalls::{CallNumber, ClientId};
use zprotocol::world::CallEvent;
use zprotocol::{Message, Process};

impl Processes {
    /// Delivers the front message of a channel.
    pub(crate) fn take(
        &mut self,
        from: Process,
        to: Process,
        seen: &mut Vec<CallEvent>,
    ) -> Result<Did, Memory>
        ensures stepped { IfOk result
            (Goes self.old self.new (Take from to) seen.old seen.new) }
        ensures silent { OnErr result (seen.new.items ≡ seen.old.items) }
        ensures needed { OnErr result (CanHappen self.old (Take from to)) }
    {
        if is_lost(&self.actors, &to) {
            return Ok(Did::Idle(IdleCause::Nothing));
        }
        let Some(message) = self.links.next(&from, &to) else {
            return Ok(Did::Idle(IdleCause::Nothing));
        };
        let mut handed = Handed::Nothing;
        match self.give(&to, Input::Hear(from, message), &mut handed) {
            Ok(done) => {
                let did = reported_of(&to, done, &mut handed, seen);
                drop(handed);
                did
            }
            Err(fault) => {
                drop(fault);
                drop(handed);
                Err(Memory)
            }
        }
    }

    /// Loses the front message of a channel, a request of a client.
    pub(crate) fn ignore(&mut self, from: Process, to: Process) -> Did
        ensures { HasStepped self.old self.new (Ignore from to) result [] }
    {
        if is_lost(&self.actors, &to) || !self.has_request(&from, &to) {
            return Did::Idle(IdleCause::Nothing);
        }
        drop(self.links.next(&from, &to));
        Did::Done
    }

    // Returns whether the front of a channel is a request of a client.
    fn has_request(&self, from: &Process, to: &Process) -> bool
        ensures { result ≡ front_is is_request ((kept_world self.now []).links from.now to.now) }
    {
        match self.links.front(from, to) {
            Some(Message::Submit(_, _)) => true,
            Some(Message::Query(_, _)) => true,
            _ => false,
        }
    }
}

// Appends what callers see of a delivery, the answer that a client returned, and returns what
// became of it.
#[inline(always)]
fn reported_of(
    to: &Process,
    done: Done,
    handed: &mut Handed,
    seen: &mut Vec<CallEvent>,
) -> Result<Did, Memory>
    ensures reported { IfOk result (IsReportedOf (reported_with to.now done (reply_handed
        handed.old)) done seen.old.items seen.new.items) }
    ensures silent { OnErr result (seen.new.items ≡ seen.old.items) }
{
    if let (Process::Client(client), Done::Answered(number)) = (to, &done) {
        tell(*client, *number, handed, seen)?;
    }
    Ok(did_of(done))
}

// Appends the answer with this number, if a reply was returned. It is out of line, so that the
// reply isn't moved until then.
#[inline(never)]
fn tell(
    client: ClientId,
    number: CallNumber,
    handed: &mut Handed,
    seen: &mut Vec<CallEvent>,
) -> Result<(), Memory>
    ensures reported { OnOk result (seen.new.items ≡ seen.old.items
        ++ reported_with (Client client) (Answered number) (reply_handed handed.old)) }
    ensures silent { OnErr result (seen.new.items ≡ seen.old.items) }
{
    seen.reserve(1)?;
    if let Some(reply) = handed.take_reply() {
        seen.push_reserved(CallEvent::Answer(client, number, reply));
    }
    Ok(())
}

// Returns what became of a delivery.
fn did_of(done: Done) -> Did
    ensures { result ≡ did_of done }
{
    match done {
        Done::Unheard => Did::Unheard,
        Done::Stopped => Did::Stopped,
        Done::Acted | Done::Left | Done::Began(_) | Done::Answered(_) => Did::Done,
    }
}
