//! A repair: the new successor is sent what it lacks.

use crate::play::{Rows, first, plays};
use crate::values::Given;
use zprotocol::ServerId;

/// A server between server 1, as a pair of epoch 4, and server 3, as a pair of epoch 5. It has one
/// entry, which the tail may not have processed.
pub(crate) const SET_UP: Rows = &[
    (Given::NewPred(4, 1), &[("master", 0, "have", 4, Some(0))]),
    (Given::NewSucc(5, 3, Some(0)), &[]),
    (
        Given::Update(1, 4, 1),
        &[("server", 3, "update", 5, Some(1))],
    ),
];

/// The server still has its one entry: it sends it to a new successor, which has none.
pub(crate) const AS_BEFORE: Rows = &[
    (Given::NewPred(7, 2), &[("master", 0, "have", 7, Some(1))]),
    (
        Given::NewSucc(8, 4, Some(0)),
        &[("server", 4, "update", 8, Some(1))],
    ),
];

// A server in the middle accepts a second entry, and sends it to a new successor that lacks it.
const MENDS: Rows = &[
    (
        Given::Update(1, 4, 2),
        &[("server", 3, "update", 5, Some(2))],
    ),
    (
        Given::NewSucc(6, 4, Some(1)),
        &[("server", 4, "update", 6, Some(2))],
    ),
];

#[test]
fn sends_what_the_new_successor_lacks(rt: HostRuntime) {
    let mut middle = first(&rt, rt.alloc(), ServerId::new(1), ServerId::new(3));
    plays(&rt, rt.alloc(), &mut middle, SET_UP);
    plays(&rt, rt.alloc(), &mut middle, MENDS);
    drop(middle);
}
