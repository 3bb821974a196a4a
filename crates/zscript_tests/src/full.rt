//! A tree that is full: 4,096 nodes, the root among them, and `/a1` to `/a4095`, made in this
//! order.

use crate::chunks::Chunk::{Each, Text};
use crate::chunks::{Chunk, plays_chunks};

const MADE: Chunk = Each("1 create /a", 4095, " p -\n");

const ITS_ANSWERS: Chunk = Each("ok /a", 4095, "\n");

const NODES: &[Chunk] = &[
    MADE,
    Text("1 create /z p -\n1 delete /a1 any\n1 create /z p -\n1 create /y p -\n"),
];

const ANSWERS_OF_NODES: &[Chunk] = &[ITS_ANSWERS, Text("no Full\nok deleted\nok /z\nno Full\n")];

#[test]
fn refuses_a_node_too_many(rt: HostRuntime) {
    plays_chunks(&rt, rt.alloc(), NODES, ANSWERS_OF_NODES);
}

const PARTS: &[Chunk] = &[
    MADE,
    Text("1 multi create /z p - ; delete /a1 any\n"),
    Text("1 multi delete /a1 any ; create /z p -\n"),
    Text("1 multi delete /a2 any ; create /a2 p - ; check /a3 9\n"),
    Text("1 exists /a2\n1 exists /\n"),
];

const ANSWERS_OF_PARTS: &[Chunk] = &[
    ITS_ANSWERS,
    Text("no multi 1 Full\nok multi deleted ; /z\nno multi 3 BadVersion\n"),
    Text("ok stat 2 2 2 0 0 0 0 0 0 0\nok stat 0 0 4096 0 0 0 4097 0 0 4095\n"),
];

#[test]
fn refuses_a_part_too_many(rt: HostRuntime) {
    plays_chunks(&rt, rt.alloc(), PARTS, ANSWERS_OF_PARTS);
}
