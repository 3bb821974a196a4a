//! Inputs that are refused.

ghost use Rattle.std.specs.Prelude.{◌≡◌};
ghost use Rattle.zprotocol.specs.world.Does.{AtMaster, AtServer, AtClient};
ghost use Rattle.zserver.specs.Server.{TreeView};
ghost use Rattle.zactor.specs.Acting.{refusal_of};
ghost use Rattle.zactor.specs.support.Kinds.{standing_of};

use crate::input::Input;
use crate::kind::Kind;
use crate::refusal::Refusal;
use zclient::ClientCore;
use zmaster::Master;

impl Kind {
    /// Returns why an input would be refused now.
    pub(crate) fn refusal(&self, input: &Input) -> Option<Refusal>
        ensures { result ≡ refusal_of (standing_of self.now) input.now }
    {
        match self {
            Kind::Master(master) => refusal_of_master(master, input),
            Kind::Server(_) => refusal_of_server(input),
            Kind::Client(client) => refusal_of_client(client, input),
            Kind::Gone => Some(Refusal::NotAccepted),
        }
    }
}

fn refusal_of_master(master: &Master, input: &Input) -> Option<Refusal>
    ensures { result ≡ refusal_of (AtMaster master.now) input.now }
{
    match input {
        Input::Hear(_, _) => None,
        Input::Obey(order) => match master.order_fault(order) {
            Some(fault) => Some(Refusal::Order(fault)),
            None => None,
        },
        Input::Begin(_) | Input::Retry | Input::Stop => Some(Refusal::NotAccepted),
    }
}

fn refusal_of_server(input: &Input) -> Option<Refusal>
    ensures { (view : TreeView) → result ≡ refusal_of (AtServer view) input.now }
{
    match input {
        Input::Hear(_, _) | Input::Stop => None,
        Input::Begin(_) | Input::Retry | Input::Obey(_) => Some(Refusal::NotAccepted),
    }
}

fn refusal_of_client(client: &ClientCore, input: &Input) -> Option<Refusal>
    ensures { result ≡ refusal_of (AtClient client.now) input.now }
{
    match input {
        Input::Hear(_, _) => None,
        Input::Begin(_) => match client.begin_fault() {
            Some(fault) => Some(Refusal::Begin(fault)),
            None => None,
        },
        Input::Retry => match client.outstanding() {
            Some(_) => None,
            None => Some(Refusal::NotAccepted),
        },
        Input::Obey(_) | Input::Stop => Some(Refusal::NotAccepted),
    }
}
