//! What a server in the middle of a chain ignores: nothing changes, and nothing is sent.

use crate::mending::{AS_BEFORE, SET_UP};
use crate::play::{Rows, first, plays};
use crate::values::Given;
use std::alloc::Global;
use std::process::Abort;
use zprotocol::ServerId;

const OLD_UPDATE: Rows = &[(Given::Update(1, 3, 2), &[])];

const LATER_UPDATE: Rows = &[(Given::Update(1, 4, 3), &[])];

const STRANGERS_UPDATE: Rows = &[(Given::Update(2, 4, 2), &[])];

const OLD_ACK: Rows = &[(Given::Ack(3, 4, 1), &[])];

const SNAPSHOT: Rows = &[(Given::Snapshot(1, 4), &[])];

const QUERY: Rows = &[(Given::Query(2), &[])];

const SUBMIT: Rows = &[(Given::Submit(2), &[])];

const JOINED: Rows = &[(Given::Joined(3, 5), &[])];

#[test]
fn ignores_an_update_of_an_old_epoch(rt: HostRuntime) {
    ignores(&rt, rt.alloc(), OLD_UPDATE);
}

#[test]
fn ignores_an_update_beyond_the_next(rt: HostRuntime) {
    ignores(&rt, rt.alloc(), LATER_UPDATE);
}

#[test]
fn ignores_an_update_of_a_stranger(rt: HostRuntime) {
    ignores(&rt, rt.alloc(), STRANGERS_UPDATE);
}

#[test]
fn ignores_an_ack_of_an_old_epoch(rt: HostRuntime) {
    ignores(&rt, rt.alloc(), OLD_ACK);
}

#[test]
fn ignores_a_snapshot(rt: HostRuntime) {
    ignores(&rt, rt.alloc(), SNAPSHOT);
}

#[test]
fn ignores_a_query(rt: HostRuntime) {
    ignores(&rt, rt.alloc(), QUERY);
}

#[test]
fn ignores_a_submit(rt: HostRuntime) {
    ignores(&rt, rt.alloc(), SUBMIT);
}

#[test]
fn ignores_joined(rt: HostRuntime) {
    ignores(&rt, rt.alloc(), JOINED);
}

// A server in the middle ignores these messages, as what it does then shows.
fn ignores(rt: &impl Abort, alloc: Global, rows: Rows) {
    let mut middle = first(rt, alloc, ServerId::new(1), ServerId::new(3));
    plays(rt, alloc, &mut middle, SET_UP);
    plays(rt, alloc, &mut middle, rows);
    plays(rt, alloc, &mut middle, AS_BEFORE);
    drop(middle);
}
