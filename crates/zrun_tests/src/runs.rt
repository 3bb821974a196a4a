//! A cluster that is started, what its client does, and its join.

ghost use Rattle.std.specs.Prelude.{◌≡◌, ◌≤◌, IfOk};
ghost use Rattle.ztree.specs.declared.limits.TheConstants.{MAX_CLIENTS};
ghost use Rattle.zrun.specs.Clusters.{cluster_run};
ghost use Rattle.zrun.specs.Members.{clients_run};

use crate::gates::{Meeting, Sought, gates};
use std::alloc::Global;
use std::sync::{Arc, Wait};
use std::test::Fail;
use std::thread::Threads;
use zprotocol::ServerId;
use zrun::{Clients, Cluster, Console};

/// A cluster, with its console and its clients.
pub type Started = (Cluster, Console, Clients);

/// Starts a cluster whose first three gates look for these.
pub fn start<R: Threads + Wait + Copy + Send + 'static>(
    rt: R,
    alloc: Global,
    last: ServerId,
    clients: u8,
    meeting: &Arc<Meeting, Global>,
    sought: [Sought; 3],
) -> Result<Started, Fail>
    requires { clients ≤ MAX_CLIENTS }
    ensures { IfOk result (λ run. clients_run run.2 ≡ cluster_run run.0) }
{
    let watches = gates(alloc, meeting, sought)?;
    Ok(Cluster::start(rt, alloc, last, clients, watches)?)
}

/// Starts a cluster whose gates let all pass.
pub fn start_plain<R: Threads + Wait + Copy + Send + 'static>(
    rt: R,
    alloc: Global,
    last: ServerId,
    clients: u8,
) -> Result<Started, Fail>
    requires { clients ≤ MAX_CLIENTS }
    ensures { IfOk result (λ run. clients_run run.2 ≡ cluster_run run.0) }
{
    let meeting = Meeting::new(alloc, 1)?;
    start(rt, alloc, last, clients, &meeting, [Sought::Nothing; 3])
}
