//! Each process in its initial state.

ghost use Rattle.std.specs.Prelude.{◌≡◌, ◌<◌, ◌≤◌, IfOk};
ghost use Rattle.ztree.specs.declared.limits.TheConstants.{MAX_CLIENTS};
ghost use Rattle.zprotocol.specs.declared.process.Process.TheVariants as process;
ghost use Rattle.zthreads.specs.Endpoints.{is_traced_of};
ghost use Rattle.zthreads.specs.Owned.{master_endpoint, server_endpoint};
ghost use Rattle.zthreads.specs.Callers.{caller_endpoint};

use std::alloc::Global;
use zalloc::Memory;
use zcalls::ClientId;
use zchannels::bells::Bells;
use zchannels::rings::{Rx, Tx};
use zclient::ClientCore;
use zmaster::Master;
use zprotocol::{Process, ServerId};
use zserver::Server;
use zthreads::{Caller, Endpoint, MasterThread, ServerThread, Stamped};

/// What all processes of a run know of its initial state.
#[derive(Clone, Copy)]
pub(crate) struct Opening {
    /// The last server of the chain.
    pub(crate) last: ServerId,
    /// How many clients there are.
    pub(crate) clients: u8,
    /// Whether each process has a trace.
    pub(crate) is_traced: bool,
    ghost few: { clients ≤ MAX_CLIENTS },
}

/// The channels of one process, by index.
#[derive(Drop)]
pub(crate) struct Ends {
    pub(crate) ins: Vec<Rx<Stamped>>,
    pub(crate) outs: Vec<Tx<Stamped>>,
    pub(crate) bells: Bells,
}

impl Opening {
    ghost use Rattle.zrun.specs.Openings.{AreFresh, HasEnds, IsEndpointAt};

    /// Returns the master.
    pub(crate) fn master(&self, alloc: Global, ends: Ends) -> MasterThread
        requires { AreFresh ends }
        ensures endpoint { IsEndpointAt self.now process.Master (master_endpoint result) }
        ensures ends { HasEnds ends (master_endpoint result) }
        ensures traced { is_traced_of (master_endpoint result) ≡ self.now.is_traced }
    {
        let Ends { ins, outs, bells } = ends;
        let endpoint = Endpoint::new(
            alloc,
            Process::Master,
            self.last,
            self.clients,
            ins,
            outs,
            bells,
            self.is_traced,
        );
        MasterThread::new(endpoint, Master::new(self.last, self.clients))
    }

    /// Returns the server of this number: a member of the chain, or a spare one.
    pub(crate) fn server(
        &self,
        alloc: Global,
        id: ServerId,
        ends: Ends,
    ) -> Result<ServerThread, Memory>
        requires { AreFresh ends }
        ensures endpoint { IfOk result (λ server.
            IsEndpointAt self.now (process.Server id) (server_endpoint server)) }
        ensures ends { IfOk result (λ server. HasEnds ends (server_endpoint server)) }
        ensures traced { IfOk result (λ server.
            is_traced_of (server_endpoint server) ≡ self.now.is_traced) }
    {
        id.keeps_in_range();
        let server = Server::opening(alloc, id, self.last)?;
        let Ends { ins, outs, bells } = ends;
        let endpoint = Endpoint::new(
            alloc,
            Process::Server(id),
            self.last,
            self.clients,
            ins,
            outs,
            bells,
            self.is_traced,
        );
        Ok(ServerThread::new(id, endpoint, server))
    }

    /// Returns the client of this number.
    pub(crate) fn caller(&self, alloc: Global, id: ClientId, ends: Ends) -> Caller
        requires fresh { AreFresh ends }
        requires known { id < self.now.clients }
        ensures endpoint { IsEndpointAt self.now (process.Client id) (caller_endpoint result) }
        ensures ends { HasEnds ends (caller_endpoint result) }
        ensures traced { is_traced_of (caller_endpoint result) ≡ self.now.is_traced }
    {
        let Ends { ins, outs, bells } = ends;
        let endpoint = Endpoint::new(
            alloc,
            Process::Client(id),
            self.last,
            self.clients,
            ins,
            outs,
            bells,
            self.is_traced,
        );
        Caller::new(id, endpoint, ClientCore::new(alloc, self.last))
    }
}
