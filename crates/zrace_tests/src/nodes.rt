//! A race plays the nodes that it reports, and no others.

use std::test::Fail;
use zaudit::audit;
use zprotocol::traces::{Act, Trace, Traces};
use zrace::{Finish, Race, run};
use ztesting::server;

const ROUNDS: u16 = 40;

// How many calls the client began.
fn calls_in(trace: &Trace) -> u64 {
    let mut calls = 0u64;
    for place in 0..trace.events.len() {
        if let Act::Began(_) = &trace.events[place].act {
            calls = calls.saturating_add(1);
        }
    }
    calls
}

// How many calls all clients began.
fn calls_in_all(traces: &Traces) -> u64 {
    let mut calls = 0u64;
    for place in 0..traces.clients.len() {
        calls = calls.saturating_add(calls_in(&traces.clients[place].trace));
    }
    calls
}

// Each node is created, set and queried once, and client 0 calls nothing.
#[test]
fn a_race_plays_its_nodes_alone(rt: HostRuntime) -> Result<(), Fail> {
    let alloc = rt.alloc();
    let race = Race::new(server(1), 3, ROUNDS, 0).ok_or("its numbers are in range")?;
    let Finish { versions, traces } = run(rt, alloc, &race)?;
    assert!(rt; versions.len() == ROUNDS as usize && calls_in_all(&traces) == 3 * ROUNDS as u64);
    assert!(rt; traces.clients.len() == 4 && traces.clients[0].trace.events.is_empty());
    assert!(rt; audit(alloc, &traces).is_ok());
    Ok(())
}
