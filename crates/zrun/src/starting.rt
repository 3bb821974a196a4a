//! The start of a cluster.

ghost use Rattle.std.specs.Prelude.{◌≡◌, ◌≤◌, [], All, IfErr, IfOk, length, map};
ghost use Rattle.std.specs.Vec.{vec_capacity};
ghost use Rattle.std.specs.Arc.{arc_value};
ghost use Rattle.zchannels.specs.HaltSeats.{IsSeatOf};
ghost use Rattle.ztree.specs.declared.limits.TheConstants.{MAX_CLIENTS};
ghost use Rattle.zprotocol.specs.declared.limits.TheConstants.{MAX_SERVERS};
ghost use Rattle.zthreads.specs.Endpoints.{SameEndpoint};
ghost use Rattle.zthreads.specs.Owned.{master_endpoint, server_endpoint};
ghost use Rattle.zrun.specs.Handles.{given_master, given_server};
ghost use Rattle.zrun.specs.Members.{clients_run, HasAll};
ghost use Rattle.zrun.specs.Openings.{IsRunFrom};
ghost use Rattle.zrun.specs.Posts.{endpoints_in, post_endpoints, run_in};
ghost use Rattle.zrun.specs.declared.faults.StartFault.TheVariants.{Thread};

use crate::clients::Clients;
use crate::cluster::{Cluster, end_all};
use crate::faults::StartFault;
use crate::opening::Opening;
use crate::posts::{MasterPost, Posts, ServerPost, prepare};
use crate::promises::{SameMaster, SameServer};
use crate::supply::HaltPost;
use std::alloc::Global;
use std::snapshot::Snapshot;
use std::sync::Wait;
use std::thread;
use std::thread::{PromisedHandle, Threads};
use std::time::Duration;
use zchannels::bells::SLEEP_MILLIS;
use zchannels::console::{Console, Inbox};
use zprotocol::{MAX_SERVERS, ServerId};
use zthreads::{Gate, MasterThread, ServerThread, preside, serve};

impl Cluster {
    ghost use Rattle.zrun.specs.Clusters.{client_count, cluster_opening, cluster_run, last_server};

    /// Starts a thread for each of the sixteen servers, spare ones too, and one for the master.
    ///
    /// The chain is the servers up to `last`. There are `clients` clients, numbered from 0 on. The
    /// gates are those of the servers, by number. At an error no thread is left running. All memory
    /// is allocated before the first thread starts: from then on the only error is `Thread`.
    pub fn start<G: Gate + Send + 'static, R: Threads + Wait + Copy + Send + 'static>(
        rt: R,
        alloc: Global,
        last: ServerId,
        clients: u8,
        gates: Vec<G>,
    ) -> Result<(Cluster, Console, Clients), StartFault>
        requires clients { clients ≤ MAX_CLIENTS }
        requires gates { length gates.items ≡ MAX_SERVERS }
        ensures all { IfOk result (λ run. HasAll clients run.2) }
        ensures own { IfOk result (λ run. clients_run run.2 ≡ cluster_run run.0) }
        ensures numbers { IfOk result (λ run.
            (last_server run.0 ≡ last) × (client_count run.0 ≡ clients)) }
    {
        let longest = Duration::from_millis(SLEEP_MILLIS);
        Cluster::start_sleeping(rt, alloc, last, clients, gates, longest)
    }

    /// Does the same, but with this longest sleep of a thread without work. `start` takes 20
    /// milliseconds. With a longer sleep a test shows which thread isn't woken.
    pub fn start_sleeping<G: Gate + Send + 'static, R: Threads + Wait + Copy + Send + 'static>(
        rt: R,
        alloc: Global,
        last: ServerId,
        clients: u8,
        gates: Vec<G>,
        longest: Duration,
    ) -> Result<(Cluster, Console, Clients), StartFault>
        requires clients { clients ≤ MAX_CLIENTS }
        requires gates { length gates.items ≡ MAX_SERVERS }
        ensures all { IfOk result (λ run. HasAll clients run.2) }
        ensures own { IfOk result (λ run. clients_run run.2 ≡ cluster_run run.0) }
        ensures numbers { IfOk result (λ run.
            (last_server run.0 ≡ last) × (client_count run.0 ≡ clients)) }
    {
        let opening = Opening {
            last,
            clients,
            is_traced: true,
        };
        Cluster::start_from(rt, alloc, opening, gates, longest)
    }

    // Starts a run with this initial state.
    pub(crate) fn start_from<G: Gate + Send + 'static, R: Threads + Wait + Copy + Send + 'static>(
        rt: R,
        alloc: Global,
        opening: Opening,
        gates: Vec<G>,
        longest: Duration,
    ) -> Result<(Cluster, Console, Clients), StartFault>
        requires gates { length gates.items ≡ MAX_SERVERS }
        ensures all { IfOk result (λ run. HasAll opening.clients run.2) }
        ensures own { IfOk result (λ run. clients_run run.2 ≡ cluster_run run.0) }
        ensures opening { IfOk result (λ run. cluster_opening run.0 ≡ opening) }
    {
        let posts = prepare(alloc, &opening, longest)?;
        let Ok(threads) = Vec::with_capacity(alloc, MAX_SERVERS as usize) else {
            drop((posts, gates));
            return Err(StartFault::Memory);
        };
        Cluster::start_over(rt, opening, posts, gates, threads)
    }

    // Starts the threads, whose memory is allocated already: the only fault is `Thread`.
    fn start_over<G: Gate + Send + 'static, R: Threads + Wait + Copy + Send + 'static>(
        rt: R,
        opening: Opening,
        posts: Posts,
        gates: Vec<G>,
        threads: Vec<PromisedHandle<ServerThread, SameServer>>,
    ) -> Result<(Cluster, Console, Clients), StartFault>
        requires servers { length posts.servers.items ≡ MAX_SERVERS }
        requires count { length (run_in posts) ≡ opening.clients }
        requires own { clients_run posts.clients ≡ run_in posts }
        requires all { HasAll opening.clients posts.clients }
        requires run { IsRunFrom opening (endpoints_in posts) }
        requires gates { length gates.items ≡ MAX_SERVERS }
        requires none { threads.items ≡ [] }
        requires room { MAX_SERVERS ≤ vec_capacity threads }
        ensures all { IfOk result (λ run. HasAll opening.clients run.2) }
        ensures own { IfOk result (λ run. clients_run run.2 ≡ cluster_run run.0) }
        ensures opening { IfOk result (λ run. cluster_opening run.0 ≡ opening) }
        ensures fault { IfErr result (λ fault. fault ≡ Thread) }
    {
        let Posts {
            master,
            servers,
            clients,
            run,
            console,
            halt,
        } = posts;
        let master = match start_master(rt, master) {
            Ok(master) => master,
            Err(fault) => {
                drop((servers, gates, threads));
                drop((halt, run, console, clients));
                return Err(fault);
            }
        };
        match start_servers(rt, servers, gates, threads) {
            Ok(servers) => Ok((
                Cluster {
                    opening,
                    halt,
                    master,
                    servers,
                    run,
                },
                console,
                clients,
            )),
            Err((fault, started)) => {
                end_all(&rt, halt, master, started);
                drop((run, console, clients));
                Err(fault)
            }
        }
    }
}

// Starts the master's thread.
fn start_master<R: Threads + Wait + Copy + Send + 'static>(
    rt: R,
    post: MasterPost,
) -> Result<PromisedHandle<(MasterThread, Inbox), SameMaster>, StartFault>
    ensures given { IfOk result (λ handle. given_master handle ≡ master_endpoint post.chief) }
    ensures fault { IfErr result (λ fault. fault ≡ Thread) }
{
    let MasterPost {
        chief,
        inbox,
        halt: HaltPost { halt, seat, bells },
    } = post;
    drop(bells);
    let promise = SameMaster(Snapshot::of(&chief));
    match thread::spawn_with(
        &rt,
        promise,
        move || -> (MasterThread, Inbox)
            requires { IsSeatOf (arc_value halt) seat }
            ensures { SameEndpoint (master_endpoint chief) (master_endpoint result.0) }
        { preside(&rt, chief, inbox, &halt, seat) },
    ) {
        Ok(handle) => Ok(handle),
        Err(refused) => {
            drop(refused);
            Err(StartFault::Thread)
        }
    }
}

// Starts a server's thread.
fn start_server<G: Gate + Send + 'static, R: Threads + Wait + Copy + Send + 'static>(
    rt: R,
    post: ServerPost,
    gate: G,
) -> Result<PromisedHandle<ServerThread, SameServer>, StartFault>
    ensures given { IfOk result (λ handle. given_server handle ≡ server_endpoint post.member) }
    ensures fault { IfErr result (λ fault. fault ≡ Thread) }
{
    let ServerPost {
        member,
        halt: HaltPost { halt, seat, bells },
    } = post;
    drop(bells);
    let promise = SameServer(Snapshot::of(&member));
    match thread::spawn_with(
        &rt,
        promise,
        move || -> ServerThread
            requires { IsSeatOf (arc_value halt) seat }
            ensures { SameEndpoint (server_endpoint member) (server_endpoint result) }
        { serve(&rt, member, gate, &halt, seat) },
    ) {
        Ok(handle) => Ok(handle),
        Err(refused) => {
            drop(refused);
            Err(StartFault::Thread)
        }
    }
}

// Starts all servers' threads, the first one first. At an error it returns the fault, and the
// threads that were started.
fn start_servers<G: Gate + Send + 'static, R: Threads + Wait + Copy + Send + 'static>(
    rt: R,
    mut posts: Vec<ServerPost>,
    mut gates: Vec<G>,
    mut started: Vec<PromisedHandle<ServerThread, SameServer>>,
) -> Result<
    Vec<PromisedHandle<ServerThread, SameServer>>,
    (StartFault, Vec<PromisedHandle<ServerThread, SameServer>>),
>
    requires posts { length posts.items ≡ MAX_SERVERS }
    requires gates { length gates.items ≡ MAX_SERVERS }
    requires none { started.items ≡ [] }
    requires room { MAX_SERVERS ≤ vec_capacity started }
    ensures count { IfOk result (λ handles. length handles.items ≡ MAX_SERVERS) }
    ensures given { IfOk result (λ handles. map given_server handles.items
        ≡ post_endpoints posts.items) }
    ensures fault { IfErr result (λ failed. failed.0 ≡ Thread) }
{
    gates.reverse();
    for _ in 0..MAX_SERVERS {
        let Some(post) = posts.pop() else {
            unreachable!()
        };
        let Some(gate) = gates.pop() else {
            unreachable!()
        };
        match start_server(rt, post, gate) {
            Ok(handle) => started.push_reserved(handle),
            Err(fault) => return Err((fault, started)),
        }
    }
    Ok(started)
}
