//! A race halts the server that it is to halt.

use std::test::Fail;
use zaudit::audit;
use zprotocol::traces::{Act, Trace};
use zrace::{Finish, Race, run};
use ztesting::server;

// Enough that many updates go through the chain after the halt.
const ROUNDS: u16 = 40;

// Whether the last thing that the server did is that it was halted.
fn was_halted(trace: &Trace) -> bool {
    match trace.events.last() {
        Some(event) => matches!(&event.act, Act::Halted),
        None => false,
    }
}

// Whether each node was set once.
fn are_set_once(versions: &[Option<u64>]) -> bool {
    for node in 0..versions.len() {
        if versions[node] != Some(1) {
            return false;
        }
    }
    true
}

// The server in the middle of three is halted, and no other is.
#[test]
fn a_race_halts_its_server(rt: HostRuntime) -> Result<(), Fail> {
    let alloc = rt.alloc();
    let race = Race::new(server(3), 2, ROUNDS, 2).ok_or("its numbers are in range")?;
    let Finish { versions, traces } = run(rt, alloc, &race)?;
    assert!(rt; versions.len() == ROUNDS as usize && are_set_once(versions.as_slice()));
    assert!(rt; traces.servers.len() == 16 && was_halted(&traces.servers[1]));
    assert!(rt; !was_halted(&traces.servers[0]) && !was_halted(&traces.servers[2]));
    assert!(rt; audit(alloc, &traces).is_ok());
    Ok(())
}
