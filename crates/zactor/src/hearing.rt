//! Messages that are handled.

ghost use Rattle.std.specs.Prelude.{◌≡◌, IfErr, IfOk, OnErr};
ghost use Rattle.zprotocol.specs.world.Does.{AtMaster, AtClient};
ghost use Rattle.zactor.specs.declared.input.Input.TheVariants.{Hear};
ghost use Rattle.zactor.specs.Acting.{Acts, handed_by, IsActFault};
ghost use Rattle.zactor.specs.support.Kinds.{answered_number, done_of, end_of, GoesOn, IsRare};
ghost use Rattle.zactor.specs.support.Kinds.{standing_of};

use crate::act_fault::ActFault;
use crate::done::Done;
use crate::handed::Handed;
use crate::kind::Kind;
use crate::refusal::Refusal;
use zcalls::CallNumber;
use zclient::ClientCore;
use zmaster::{MAX_POSTS, Master};
use zprotocol::{Message, Out, Process};
use zserver::{Snapshot, Stopped, Taken};

impl Kind {
    /// Handles a message. Inlined, as is what a client does, so that the message isn't moved from
    /// one to the next.
    #[inline(always)]
    pub(crate) fn hear(
        &mut self,
        from: Process,
        message: Message<Snapshot>,
        out: &mut Out<Snapshot>,
        handed: &mut Handed,
    ) -> Result<Done, ActFault>
        requires goes { GoesOn self.old }
        ensures goes { GoesOn self.new }
        ensures handed { handed.new ≡ handed_by (Hear from message) result handed.old }
        ensures acted { IfOk result (Acts (standing_of self.old) (standing_of self.new)
            (Hear from message) out.old out.new) }
        ensures fault { IfErr result
            (IsActFault (standing_of self.old) (Hear from message) out.old.room) }
        ensures same { OnErr result (standing_of self.new ≡ standing_of self.old) }
        ensures silent { OnErr result (out.new.posts ≡ out.old.posts) }
    {
        match self {
            Kind::Server(server) => match server.take(from, message, out) {
                Ok(taken) => Ok(done_of(taken)),
                Err(why) => {
                    self.end();
                    Ok(end_of(why))
                }
            },
            Kind::Client(client) => hear_as_client(client, from, message, out, handed),
            Kind::Master(_) | Kind::Gone => self.hear_rarely(from, message, out, handed),
        }
    }

    // The same of the master, which seldom receives one, and of a server that has stopped. It is
    // out of line, so that the others pay nothing for it.
    #[cold]
    #[inline(never)]
    fn hear_rarely(
        &mut self,
        from: Process,
        message: Message<Snapshot>,
        out: &mut Out<Snapshot>,
        handed: &mut Handed,
    ) -> Result<Done, ActFault>
        requires { IsRare self.old }
        ensures goes { GoesOn self.new }
        ensures handed { handed.new ≡ handed_by (Hear from message) result handed.old }
        ensures acted { IfOk result (Acts (standing_of self.old) (standing_of self.new)
            (Hear from message) out.old out.new) }
        ensures fault { IfErr result
            (IsActFault (standing_of self.old) (Hear from message) out.old.room) }
        ensures same { OnErr result (standing_of self.new ≡ standing_of self.old) }
        ensures silent { OnErr result (out.new.posts ≡ out.old.posts) }
    {
        match self {
            Kind::Master(master) => hear_as_master(master, from, message, out, handed),
            Kind::Server(_) | Kind::Client(_) | Kind::Gone => {
                drop(message);
                Err(ActFault::Refused(Refusal::NotAccepted))
            }
        }
    }
}

// The master handles a message.
fn hear_as_master(
    master: &mut Master,
    from: Process,
    message: Message<Snapshot>,
    out: &mut Out<Snapshot>,
    handed: &mut Handed,
) -> Result<Done, ActFault>
    ensures handed { handed.new ≡ handed_by (Hear from message) result handed.old }
    ensures acted { IfOk result (Acts (AtMaster master.old) (AtMaster master.new)
        (Hear from message) out.old out.new) }
    ensures fault { IfErr result
        (IsActFault (AtMaster master.old) (Hear from message) out.old.room) }
    ensures same { OnErr result (master.new ≡ master.old) }
    ensures silent { OnErr result (out.new.posts ≡ out.old.posts) }
{
    let Ok(()) = out.reserve(MAX_POSTS) else {
        *handed = Handed::Message(message);
        return Err(ActFault::Memory);
    };
    master.take(from, message, out);
    Ok(Done::Acted)
}

// A client handles a message, and the reply to its outstanding call is returned.
#[inline(always)]
fn hear_as_client(
    client: &mut ClientCore,
    from: Process,
    message: Message<Snapshot>,
    out: &mut Out<Snapshot>,
    handed: &mut Handed,
) -> Result<Done, ActFault>
    ensures handed { handed.new ≡ handed_by (Hear from message) result handed.old }
    ensures acted { IfOk result (Acts (AtClient client.old) (AtClient client.new)
        (Hear from message) out.old out.new) }
    ensures fault { IfErr result
        (IsActFault (AtClient client.old) (Hear from message) out.old.room) }
    ensures same { OnErr result (client.new ≡ client.old) }
    ensures silent { OnErr result (out.new.posts ≡ out.old.posts) }
{
    let number = answered_number(&message);
    match client.take(from, message, out) {
        Ok(None) => Ok(Done::Acted),
        Ok(Some(reply)) => {
            let Some(number) = number else {
                // Only an Answer brings a reply.
                unreachable!();
            };
            *handed = Handed::Reply(reply);
            Ok(Done::Answered(number))
        }
        Err(message) => {
            *handed = Handed::Message(message);
            Err(ActFault::Memory)
        }
    }
}

// The number of the call that a message answers.
#[inline(always)]
fn answered_number(message: &Message<Snapshot>) -> Option<CallNumber>
    ensures { result ≡ answered_number message.now }
{
    match message {
        Message::Answer(number, _) => Some(*number),
        _ => None,
    }
}

// What became of a message that a server received.
fn done_of(taken: Taken) -> Done
    ensures { result ≡ done_of taken }
{
    match taken {
        Taken::Acted => Done::Acted,
        Taken::Unheard => Done::Unheard,
    }
}

// How a server stopped at a message.
fn end_of(why: Stopped) -> Done
    ensures { result ≡ end_of why }
{
    match why {
        Stopped::Memory => Done::Stopped,
        Stopped::Retired => Done::Left,
    }
}
