//! A client invokes calls, sends them again, and is answered.

use crate::tables::posts::{Outbox, next_server, server};
use std::alloc::Global;
use std::process::Abort;
use zcalls::{Call, CallNumber, Query, Reply, Update};
use zclient::ClientCore;
use zpath::Path;
use zprotocol::{Epoch, Message, Out, Process, ServerId};

#[test]
fn begins_and_retries_an_update(rt: HostRuntime) {
    let mut client = ClientCore::new(rt.alloc(), server(&rt, 3));
    let mut out: Outbox = Out::new(rt.alloc());
    begins_tick(&rt, &mut client, &mut out);
    assert!(rt; retries(&rt, &mut client, &mut out));
    drop(client);
    goes_to(&rt, &mut out, 1);
    goes_to(&rt, &mut out, 1);
    drop(out);
}

#[test]
fn asks_the_new_tail(rt: HostRuntime) {
    let mut client = ClientCore::new(rt.alloc(), server(&rt, 3));
    let mut out: Outbox = Out::new(rt.alloc());
    begins_query(&rt, rt.alloc(), &mut client, &mut out);
    hears_of_tail(&rt, &mut client, 1, &mut out);
    drop(client);
    goes_to(&rt, &mut out, 3);
    goes_to(&rt, &mut out, 1);
    drop(out);
}

#[test]
fn hands_out_the_reply(rt: HostRuntime) {
    let mut client = ClientCore::new(rt.alloc(), server(&rt, 1));
    let mut out: Outbox = Out::new(rt.alloc());
    begins_tick(&rt, &mut client, &mut out);
    assert!(rt; tick_reported(&rt, &mut client, &mut out) == Some(1));
    assert!(rt; !retries(&rt, &mut client, &mut out));
    drop(client);
    drop(out);
}

// Invokes a tick.
fn begins_tick(rt: &impl Abort, client: &mut ClientCore, out: &mut Outbox) {
    assert!(rt; client.begin(Call::Update(Update::Tick), out).is_ok());
}

// Invokes a query.
fn begins_query(rt: &impl Abort, alloc: Global, client: &mut ClientCore, out: &mut Outbox) {
    let query = Call::Query(Query::Exists(Path::root()));
    assert!(rt; client.begin(query, out).is_ok());
}

// Returns whether there was something to send again.
fn retries(rt: &impl Abort, client: &mut ClientCore, out: &mut Outbox) -> bool {
    client.retry(out).expect(rt, "there is memory")
}

// The client learns, without an answer, that this server is the tail now.
fn hears_of_tail(rt: &impl Abort, client: &mut ClientCore, tail: u8, out: &mut Outbox) {
    let epoch = Epoch::new(1).expect(rt, "there is such an epoch");
    let config = Message::Config(epoch, ServerId::new(2), ServerId::new(tail));
    let reported = client.take(Process::Master, config, out);
    let is_taken = matches!(&reported, Ok(None));
    drop(reported);
    assert!(rt; is_taken);
}

// Returns the time that the client receives, where its first call was a tick.
fn tick_reported(rt: &impl Abort, client: &mut ClientCore, out: &mut Outbox) -> Option<u64> {
    let first = CallNumber::new(1).expect(rt, "there is such a number");
    let answer = Message::Answer(first, Reply::Ticked(1, 0, 0));
    let reported = client.take(Process::Server(server(rt, 1)), answer, out);
    let time = match &reported {
        Ok(Some(Reply::Ticked(now, _, _))) => Some(*now),
        _ => None,
    };
    drop(reported);
    time
}

// Asserts that the first message goes to this server.
fn goes_to(rt: &impl Abort, out: &mut Outbox, number: u8) {
    assert!(rt; next_server(out) == Some(number));
}
