//! A call from its invocation to its response, a join, a server that leaves, a call that settles,
//! and a history that is cleared.

use Who::{Client, Master, Server};
use std::alloc::Global;
use std::process::Abort;
use zcalls::{Call, ClientId, Reply, Update};
use zprotocol::world::{CallEvent, Event, Settled};
use zprotocol::{Process, ServerId};
use zworld::{Did, World};

// A process: the master, a server by its number, or the one client.
#[derive(Clone, Copy)]
enum Who {
    Master,
    Server(u8),
    Client,
}

// Channels, each of which has a message at its front when it is delivered.
type Links = &'static [(Who, Who)];

const CALL: Links = &[(Client, Server(1)), (Server(1), Client)];

const JOIN: Links = &[
    (Master, Server(2)),
    (Server(2), Master),
    (Master, Server(1)),
    (Server(1), Server(2)),
    (Server(2), Master),
];

// The second server leaves, and the first one is the last.
const LEAVE: Links = &[
    (Master, Server(2)),
    (Server(2), Master),
    (Master, Server(1)),
];

#[test]
fn answers_a_call(rt: HostRuntime) {
    let mut world = opened(&rt, rt.alloc(), 1);
    begins(&rt, &mut world);
    takes(&rt, &mut world, CALL);
    assert!(rt; is_of_the_tick(world.history()));
    drop(world);
}

#[test]
fn lets_a_server_join(rt: HostRuntime) {
    let mut world = opened(&rt, rt.alloc(), 1);
    does(&rt, &mut world, Event::join(server(&rt, 2)));
    takes(&rt, &mut world, JOIN);
    assert!(rt; world.history().is_empty());
    drop(world);
}

#[test]
fn lets_a_server_leave(rt: HostRuntime) {
    let mut world = opened(&rt, rt.alloc(), 2);
    does(&rt, &mut world, Event::retire(server(&rt, 2)));
    refuses(&rt, &mut world, Event::retire(server(&rt, 2)));
    refuses(&rt, &mut world, Event::retire(server(&rt, 1)));
    takes(&rt, &mut world, LEAVE);
    refuses(&rt, &mut world, Event::retire(server(&rt, 1)));
    refuses(&rt, &mut world, Event::Fail(server(&rt, 2)));
    begins(&rt, &mut world);
    takes(&rt, &mut world, CALL);
    assert!(rt; is_of_the_tick(world.history()));
    drop(world);
}

#[test]
fn settles_a_call(rt: HostRuntime) {
    let mut world = opened(&rt, rt.alloc(), 3);
    begins(&rt, &mut world);
    assert!(rt; world.settle(2) == Ok(Settled::Limit));
    assert!(rt; world.history().len() == 1);
    assert!(rt; world.settle(100) == Ok(Settled::Quiet));
    assert!(rt; is_of_the_tick(world.history()));
    drop(world);
}

#[test]
fn forgets_a_call(rt: HostRuntime) {
    let mut world = opened(&rt, rt.alloc(), 2);
    begins(&rt, &mut world);
    assert!(rt; world.settle(100) == Ok(Settled::Quiet));
    world.forget();
    assert!(rt; world.history().is_empty());
    begins(&rt, &mut world);
    assert!(rt; world.history().len() == 1);
    drop(world);
}

// Returns a world with one client, whose chain has this many servers.
fn opened(rt: &impl Abort, alloc: Global, servers: u8) -> World {
    World::new(alloc, server(rt, servers), 1).expect(rt, "there is memory")
}

// The client invokes a call, a tick.
fn begins(rt: &impl Abort, world: &mut World) {
    does(
        rt,
        world,
        Event::Begin(client(rt), Call::Update(Update::Tick)),
    );
}

// Delivers the front message of each channel.
fn takes(rt: &impl Abort, world: &mut World, links: Links) {
    for (from, to) in links {
        does(rt, world, Event::Take(process(rt, *from), process(rt, *to)));
    }
}

// Asserts that an event happens.
fn does(rt: &impl Abort, world: &mut World, event: Event) {
    let did = world.step(event);
    assert!(rt; did == Ok(Did::Done));
}

// Asserts that an event is not enabled.
fn refuses(rt: &impl Abort, world: &mut World, event: Event) {
    let did = world.step(event);
    assert!(rt; did != Ok(Did::Done));
}

// Returns whether the client's first call was invoked and answered, as a tick, and no more.
fn is_of_the_tick(history: &[CallEvent]) -> bool {
    match history.last() {
        Some(CallEvent::Answer(_, number, Reply::Ticked(1, 0, 0))) => {
            history.len() == 2 && number.number() == 1
        }
        _ => false,
    }
}

fn process(rt: &impl Abort, who: Who) -> Process {
    match who {
        Master => Process::Master,
        Server(number) => Process::Server(server(rt, number)),
        Client => Process::Client(client(rt)),
    }
}

fn server(rt: &impl Abort, number: u8) -> ServerId {
    ServerId::new(number).expect(rt, "there is such a server")
}

fn client(rt: &impl Abort) -> ClientId {
    ClientId::new(0).expect(rt, "there is such a client")
}
