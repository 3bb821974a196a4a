//! A list of events that is run: an update and a query of one client, each from its beginning to
//! its answer, at the only server.

use std::alloc::Global;
use zalloc::Memory;
use zcalls::{Call, Create, Data, Kind, Lifetime, Query, Reply, Update};
use zpath::Path;
use zprotocol::Process;
use zprotocol::world::{CallEvent, Event};
use ztesting::{Ended, client, server};
use zworld::World;

// Far more events than any settling here takes.
const LIMIT: usize = 1000;

/// The list is run in a world of its own.
pub(crate) fn events_are_run(alloc: Global) -> Ended {
    let Ok(mut world) = World::new(alloc, server(1), 2) else {
        return Ended::NotBegun;
    };
    let ended = match events(alloc) {
        Ok(events) => runs(&mut world, events),
        Err(Memory) => Ended::NotBegun,
    };
    drop(world);
    ended
}

fn runs(world: &mut World, events: Vec<Event>) -> Ended {
    let ran = world.run(events);
    let reported = world.history().len();
    if !is_beginning(world.history()) {
        return Ended::Wrong;
    }
    match ran {
        Ok(()) if reported == 4 => Ended::Done,
        Ok(()) => Ended::refused(goes_on(world, reported)),
        Err(Memory) => Ended::refused(is_broken(world, reported)),
    }
}

// The server has stopped at the update, which no server answers then; or it didn't receive the
// query, which is asked again.
fn goes_on(world: &mut World, reported: usize) -> bool {
    let is_settled = world.settle(LIMIT).is_ok();
    let now = world.history().len();
    is_settled && is_beginning(world.history()) && matches!((reported, now), (1, 1) | (3, 4))
}

/// Whether the world returns Memory for everything, and its history remains.
pub(crate) fn is_broken(world: &mut World, reported: usize) -> bool {
    world.settle(LIMIT).is_err()
        && world.step(Event::Fail(server(1))).is_err()
        && world.step(Event::Retry(client(1))).is_err()
        && world.history().len() == reported
}

// Whether it is a prefix of the history without any refusal.
fn is_beginning(history: &[CallEvent]) -> bool {
    let are_right = history
        .iter()
        .enumerate()
        .all(|(place, event)| is_at(place, event));
    are_right && history.len() <= 4
}

fn is_at(place: usize, event: &CallEvent) -> bool {
    match event {
        CallEvent::Begin(_, number, Call::Update(_)) => place == 0 && number.number() == 1,
        CallEvent::Answer(_, number, Reply::Created(_)) => place == 1 && number.number() == 1,
        CallEvent::Begin(_, number, Call::Query(_)) => place == 2 && number.number() == 2,
        CallEvent::Answer(_, number, Reply::Children(names)) => {
            place == 3 && number.number() == 2 && names.as_slice().len() == 1
        }
        _ => false,
    }
}

fn events(alloc: Global) -> Result<Vec<Event>, Memory> {
    let mut events = Vec::new(alloc);
    match add_events(&mut events, alloc) {
        Ok(()) => Ok(events),
        Err(memory) => {
            drop(events);
            Err(memory)
        }
    }
}

fn add_events(events: &mut Vec<Event>, alloc: Global) -> Result<(), Memory> {
    add_call(events, creates(alloc)?)?;
    add_call(events, Call::Query(Query::GetChildren(Path::root())))
}

// The call begins, is taken by the server, and its answer by the client.
fn add_call(events: &mut Vec<Event>, call: Call) -> Result<(), Memory> {
    events.push(Event::Begin(client(1), call))?;
    events.push(Event::Take(asker(), asked()))?;
    events.push(Event::Take(asked(), asker()))?;
    Ok(())
}

fn asker() -> Process {
    Process::Client(client(1))
}

fn asked() -> Process {
    Process::Server(server(1))
}

fn creates(alloc: Global) -> Result<Call, Memory> {
    match Path::parse(alloc, "/a") {
        Ok(path) => Ok(Call::Update(Update::Create(Create {
            path,
            kind: Kind::named(Lifetime::Persistent),
            bytes: Data::empty(),
        }))),
        Err(_) => Err(Memory),
    }
}
