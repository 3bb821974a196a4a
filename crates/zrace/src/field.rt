//! The racing clients, in their threads and out of them.

ghost use Rattle.std.specs.Prelude.{◌≡◌, ◌<◌, All, IfErr, IfOk, IfSome, length};
ghost use Rattle.ztree.specs.declared.limits.TheConstants.{MAX_CLIENTS};
ghost use Rattle.zrun.specs.Clients.{BelongsTo, SameClient};
ghost use Rattle.zrun.specs.Members.{clients_run};
ghost use Rattle.zrun.specs.declared.faults.StartFault.TheVariants.{Thread};
ghost use Rattle.zrace.specs.Runners.{given_client};
ghost use Rattle.zrace.specs.Shown.{AreShownAmong, KeepsShown, NotesShown};
ghost use Rattle.zrace.specs.Seen.{AreSeenIn, KeepsSeen, NotesSeen};

use crate::keeping::keep;
use crate::plan::Race;
use crate::racer::{Racer, Returns, Seen};
use crate::room::Room;
use crate::runner::{Runner, Seat};
use std::alloc::Global;
use std::snapshot::Snapshot;
use std::sync::Wait;
use std::thread;
use std::thread::{PromisedHandle, Threads};
use zcalls::ClientId;
use zrun::{Client, Clients, StartFault};

/// The handle of a racing client's thread.
pub(crate) type Racing = PromisedHandle<Racer, Returns>;

/// The racing clients' threads, and what they returned.
#[derive(Drop)]
pub(crate) struct Field {
    handles: Vec<Racing>,
    /// The clients that aren't in a thread.
    pub(crate) clients: Clients,
    /// Each node's version, as far as it is known.
    pub(crate) versions: Vec<Option<u64>>,
    ghost own: { All (λ handle.
        BelongsTo (clients_run clients) (given_client handle)) handles.items },
    ghost reported: { AreSeenIn (clients_run clients) versions.items },
}

impl Field {
    /// Returns a field in which no client races yet, and the seats of those that will.
    pub(crate) fn new(room: Room, clients: Clients) -> (Field, Vec<Seat>)
        ensures clients { result.0.clients ≡ clients }
        ensures versions { result.0.versions ≡ room.versions }
    {
        let Room {
            seats,
            handles,
            versions,
        } = room;
        let field = Field {
            handles,
            clients,
            versions,
        };
        (field, seats)
    }

    /// Starts a thread for each client but the first, while there are seats.
    pub(crate) fn start_all<R: Threads + Wait + Copy + Send + 'static>(
        &mut self,
        rt: R,
        alloc: Global,
        race: &Race,
        mut seats: Vec<Seat>,
    ) -> Result<(), StartFault>
        ensures clients { clients_run self.new.clients ≡ clients_run self.old.clients }
        ensures versions { self.new.versions ≡ self.old.versions }
        ensures fault { IfErr result (λ fault. fault ≡ Thread) }
    {
        for number in 0..race.clients {
            let Some(seat) = seats.pop() else {
                return Ok(());
            };
            let Some(client) = self.take_out(number + 1) else {
                return Ok(());
            };
            self.start(rt, alloc, race, seat.taken_by(client))?;
        }
        Ok(())
    }

    /// Joins all threads, puts their clients back, and notes the versions that they received.
    pub(crate) fn join_all<R: Threads>(&mut self, rt: &R)
        ensures clients { clients_run self.new.clients ≡ clients_run self.old.clients }
        ensures nodes { length self.new.versions.items ≡ length self.old.versions.items }
        ensures recorded { AreShownAmong self.old.clients self.old.versions.items
            → AreShownAmong self.new.clients self.new.versions.items }
    {
        while let Some(handle) = self.handles.pop() {
            self.take_back(handle.join(rt));
        }
    }

    // Puts a client back, and notes the versions that it received. One of a number that is here is
    // dropped.
    fn take_back(&mut self, racer: Racer)
        requires { BelongsTo (clients_run self.old.clients) racer.client }
        ensures clients { clients_run self.new.clients ≡ clients_run self.old.clients }
        ensures nodes { length self.new.versions.items ≡ length self.old.versions.items }
        ensures handles { self.new.handles ≡ self.old.handles }
        ensures recorded { AreShownAmong self.old.clients self.old.versions.items
            → AreShownAmong self.new.clients self.new.versions.items }
    {
        let Racer { client, seen } = racer;
        if self.clients.has(client.id()) {
            drop(client);
            return;
        }
        note_all(&mut self.versions, &seen);
        self.clients.put(client);
    }

    // Takes out the client of this number, if it isn't in a thread.
    fn take_out(&mut self, number: u8) -> Option<Client>
        requires { number < MAX_CLIENTS }
        ensures clients { clients_run self.new.clients ≡ clients_run self.old.clients }
        ensures versions { self.new.versions ≡ self.old.versions }
        ensures own { IfSome result (BelongsTo (clients_run self.old.clients)) }
    {
        racer(&mut self.clients, number)
    }

    // Starts a thread for one more.
    fn start<R: Threads + Wait + Copy + Send + 'static>(
        &mut self,
        rt: R,
        alloc: Global,
        race: &Race,
        runner: Runner,
    ) -> Result<(), StartFault>
        requires { BelongsTo (clients_run self.old.clients) runner.racer.client }
        ensures clients { clients_run self.new.clients ≡ clients_run self.old.clients }
        ensures versions { self.new.versions ≡ self.old.versions }
        ensures fault { IfErr result (λ fault. fault ≡ Thread) }
    {
        let handle = start_runner(rt, alloc, race, runner)?;
        // There is room for all clients that race.
        let _ = keep(&mut self.handles, handle);
        Ok(())
    }
}

// Takes the client of this number, if it is there.
fn racer(clients: &mut Clients, number: u8) -> Option<Client>
    requires { number < MAX_CLIENTS }
    ensures run { clients_run clients.new ≡ clients_run clients.old }
    ensures own { IfSome result (BelongsTo (clients_run clients.old)) }
{
    match ClientId::new(number) {
        Some(id) => clients.take(id),
        None => unreachable!(),
    }
}

// Notes all versions that one client received.
fn note_all(versions: &mut Vec<Option<u64>>, seen: &Seen)
    ensures nodes { length versions.new.items ≡ length versions.old.items }
    ensures reported { KeepsSeen versions.old.items versions.new.items seen.now.items }
    ensures recorded { KeepsShown versions.old.items versions.new.items seen.now.items }
{
    for at in 0..seen.len() {
        let (node, version) = seen[at];
        note(versions, node, version);
    }
}

// Notes a node's version.
fn note(versions: &mut Vec<Option<u64>>, node: u64, version: u64)
    ensures nodes { length versions.new.items ≡ length versions.old.items }
    ensures reported { NotesSeen versions.old.items versions.new.items node version }
    ensures recorded { NotesShown versions.old.items versions.new.items node version }
{
    let place = node as usize;
    if place < versions.len() {
        versions[place] = Some(version);
    }
}

// Starts a thread in which this client races.
fn start_runner<R: Threads + Wait + Copy + Send + 'static>(
    rt: R,
    alloc: Global,
    race: &Race,
    runner: Runner,
) -> Result<Racing, StartFault>
    ensures given { IfOk result (λ handle. given_client handle ≡ runner.racer.client) }
    ensures fault { IfErr result (λ fault. fault ≡ Thread) }
{
    let promise = Returns(Snapshot::of(&runner.racer.client));
    let (rounds, halt) = (race.rounds as u64, race.halt);
    match thread::spawn_with(
        &rt,
        promise,
        move || -> Racer
            ensures { SameClient runner.racer.client result.client }
        { runner.run(alloc, rounds, halt) },
    ) {
        Ok(handle) => Ok(handle),
        Err(refused) => {
            drop(refused);
            Err(StartFault::Thread)
        }
    }
}
