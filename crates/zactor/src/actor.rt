//! A process of the chain.

ghost use Rattle.std.specs.Prelude.{◌≡◌, None, IfErr, IfNone, IfOk, IfSome, OnErr};
ghost use Rattle.std.specs.Option.{option_copied};
ghost use Rattle.zprotocol.specs.world.Does.{AtMaster, AtServer, AtClient};
ghost use Rattle.zactor.specs.Acting.{Acts, IsActFault, IsAccepted, IsRefused};
ghost use Rattle.zactor.specs.Acting.{client_in, handed_by, has_stopped, master_in, refusal_of};

use crate::act_fault::ActFault;
use crate::done::Done;
use crate::handed::Handed;
use crate::input::Input;
use crate::kind::Kind;
use crate::refusal::Refusal;
use std::marker::Model;
use zclient::ClientCore;
use zmaster::Master;
use zprotocol::Out;
use zserver::{Server, Snapshot};

/// A process of the chain: what it holds, whichever kind it is. It doesn't know its own number. A
/// server that has stopped for good holds nothing.
#[derive(Drop)]
pub struct Actor {
    kind: Kind,
}

impl Model for Actor {
    ghost use Rattle.zactor.specs.Acting.{TreeStanding};
    ghost use Rattle.zactor.specs.support.Codes.{coded_standing};
    ghost use Rattle.zactor.specs.support.Kinds.{standing_of, GoesOn};

    ghost Value = { TreeStanding };

    ghost coded = { coded_standing };

    ghost view = { λ actor. standing_of actor.kind };

    ghost invariant = { λ actor. GoesOn actor.kind };
}

impl Actor {
    /// Returns the process that this master is.
    pub fn master(master: Master) -> Actor
        ensures { result ≡ AtMaster master }
    {
        Actor {
            kind: Kind::Master(master),
        }
    }

    /// Returns the process that this server is, which hasn't stopped.
    pub fn server(server: Server) -> Actor
        requires { server.stopped ≡ None }
        ensures { result ≡ AtServer server.view }
    {
        Actor {
            kind: Kind::Server(server),
        }
    }

    /// Returns the process that this client is.
    pub fn client(client: ClientCore) -> Actor
        ensures { result ≡ AtClient client }
    {
        Actor {
            kind: Kind::Client(client),
        }
    }

    /// Returns whether it has stopped for good, as only a server does.
    pub fn has_stopped(&self) -> bool
        ensures { result ≡ has_stopped self.now }
    {
        match &self.kind {
            Kind::Gone => true,
            Kind::Master(_) | Kind::Server(_) | Kind::Client(_) => false,
        }
    }

    /// Returns the master, if it is the master.
    pub fn as_master(&self) -> Option<&Master>
        ensures { option_copied result ≡ master_in self.now }
    {
        match &self.kind {
            Kind::Master(master) => Some(master),
            Kind::Server(_) | Kind::Client(_) | Kind::Gone => None,
        }
    }

    /// Returns the client, if it is one.
    pub fn as_client(&self) -> Option<&ClientCore>
        ensures { option_copied result ≡ client_in self.now }
    {
        match &self.kind {
            Kind::Client(client) => Some(client),
            Kind::Master(_) | Kind::Server(_) | Kind::Gone => None,
        }
    }

    /// Returns why an input would be refused now. So what is needed only for an input that is
    /// accepted, such as a copy of a call, can be made between this and `act`.
    pub fn refusal(&self, input: &Input) -> Option<Refusal>
        ensures same { result ≡ refusal_of self.now input.now }
        ensures refused { IfSome result (λ _. IsRefused self.now input.now) }
        ensures accepted { IfNone result (IsAccepted self.now input.now) }
    {
        input.keeps_in_range();
        self.kind.refusal(input)
    }

    /// Gives the process an input. What it sends is appended to the outgoing messages. A reply, or
    /// a message for which memory ran out, is put into the caller's slot. Otherwise the slot is
    /// unchanged.
    ///
    /// The failure notice of a server that stops isn't appended: its runner delivers it, after all
    /// that the server had sent. So stopping allocates nothing.
    #[inline(always)]
    pub fn act(
        &mut self,
        input: Input,
        out: &mut Out<Snapshot>,
        handed: &mut Handed,
    ) -> Result<Done, ActFault>
        ensures handed { handed.new ≡ handed_by input result handed.old }
        ensures acted { IfOk result (Acts self.old self.new input out.old out.new) }
        ensures fault { IfErr result (IsActFault self.old input out.old.room) }
        ensures same { OnErr result (self.new ≡ self.old) }
        ensures silent { OnErr result (out.new.posts ≡ out.old.posts) }
    {
        match input {
            Input::Hear(from, message) => self.kind.hear(from, message, out, handed),
            Input::Begin(call) => self.kind.begin(call, out),
            Input::Retry => self.kind.retry(out),
            Input::Obey(order) => self.kind.obey(order, out),
            Input::Stop => self.kind.stop(),
        }
    }
}
