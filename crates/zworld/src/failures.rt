//! Servers that fail. This is rare, so it is out of line.

ghost use Rattle.std.specs.Prelude.{[]};
ghost use Rattle.zprotocol.specs.declared.world.event.Event.TheVariants.{Fail};
ghost use Rattle.zworld.specs.support.Stepped.{HasStepped};

use crate::did::{Did, IdleCause};
use crate::processes::Processes;
use zactor::{Handed, Input};
use zprotocol::{Process, ServerId};

impl Processes {
    /// A server fails: it drops what it held, and what is on channels into it.
    #[cold]
    #[inline(never)]
    pub(crate) fn fail(&mut self, server: ServerId) -> Did
        ensures { HasStepped self.old self.new (Fail server) result [] }
    {
        let mut handed = Handed::Nothing;
        let done = self.give(&Process::Server(server), Input::Stop, &mut handed);
        drop(handed);
        match done {
            Ok(done) => {
                drop(done);
                Did::Done
            }
            Err(fault) => {
                drop(fault);
                Did::Idle(IdleCause::Nothing)
            }
        }
    }
}
