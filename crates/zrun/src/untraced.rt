//! A cluster without traces, which can run indefinitely.
//!
//! # Why
//!
//! An untraced process stores no steps: a ghost field is a proof, not a value. So an invariant says
//! that such steps exist. A client's reply is tied to its own table at each call, not to a history.

ghost use Rattle.std.specs.Prelude.{◌≡◌, ◌≤◌, true, false, IfOk, length};
ghost use Rattle.ztree.specs.declared.limits.TheConstants.{MAX_CLIENTS};
ghost use Rattle.zprotocol.specs.declared.limits.TheConstants.{MAX_SERVERS};
ghost use Rattle.zrun.specs.Clusters.{cluster_is_traced};
ghost use Rattle.zrun.specs.Members.{clients_run, HasAll};

use crate::clients::Clients;
use crate::cluster::Cluster;
use crate::faults::StartFault;
use crate::knowing::is_known;
use crate::opening::Opening;
use std::alloc::Global;
use std::sync::Wait;
use std::thread::Threads;
use std::time::Duration;
use zalloc::Memory;
use zchannels::bells::SLEEP_MILLIS;
use zchannels::console::Console;
use zprotocol::ServerId;
use zthreads::Gate;

/// The threads of a run without traces. Its memory doesn't grow with the number of calls. It is a
/// type of its own, so no one can ask it for traces.
#[derive(Drop)]
pub struct Untraced {
    pub(crate) cluster: Cluster,
    ghost untraced: { cluster_is_traced cluster ≡ false },
}

impl Cluster {
    ghost use Rattle.zrun.specs.Untraced.{KeepsNoTrace, untraced_count, untraced_last, untraced_run};

    /// Starts the same threads, but for a run without an audit. No process has a trace, and no
    /// client a record. So no client refuses a call for a limit below 2^62.
    pub fn start_untraced<G: Gate + Send + 'static, R: Threads + Wait + Copy + Send + 'static>(
        rt: R,
        alloc: Global,
        last: ServerId,
        clients: u8,
        gates: Vec<G>,
    ) -> Result<(Untraced, Console, Clients), StartFault>
        requires clients { clients ≤ MAX_CLIENTS }
        requires gates { length gates.items ≡ MAX_SERVERS }
        ensures all { IfOk result (λ run. HasAll clients run.2) }
        ensures own { IfOk result (λ run. clients_run run.2 ≡ untraced_run run.0) }
        ensures numbers { IfOk result (λ run.
            (untraced_last run.0 ≡ last) × (untraced_count run.0 ≡ clients)) }
        ensures untraced { IfOk result (λ run. KeepsNoTrace run.0) }
    {
        let opening = Opening {
            last,
            clients,
            is_traced: false,
        };
        let longest = Duration::from_millis(SLEEP_MILLIS);
        let (cluster, console, clients) = Cluster::start_from(rt, alloc, opening, gates, longest)?;
        Ok((Untraced { cluster }, console, clients))
    }
}

impl Untraced {
    ghost use Rattle.zrun.specs.Untraced.{RanLawfully, untraced_count, untraced_run};

    /// Ends all threads, and takes the clients back. Returns whether every process is known to have
    /// followed its table to the end, over FIFO channels, and each client to what it knows now. It
    /// isn't known if a client isn't among `clients`, if there was no memory for a last message, or
    /// if a timestamp was the last one.
    ///
    /// The only error is out of memory. Then too all threads have ended.
    pub fn end<R: Threads>(
        self,
        rt: &R,
        alloc: Global,
        console: Console,
        clients: Clients,
    ) -> Result<bool, Memory>
        requires own { clients_run clients ≡ untraced_run self }
        ensures lawful { IfOk result (λ is_known.
            is_known ≡ true → ∥ RanLawfully self clients ∥₁) }
        ensures all { IfOk result (λ is_known.
            is_known ≡ true → HasAll (untraced_count self) clients) }
    {
        let Untraced { cluster, .. } = self;
        let (master, servers, clients) = cluster.leave(rt, alloc, console, clients)?;
        is_known(alloc, master, servers, clients)
    }
}
