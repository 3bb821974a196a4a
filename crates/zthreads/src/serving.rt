//! The loop of a server's thread.

ghost use Rattle.zchannels.specs.HaltSeats.{IsSeatOf};
ghost use Rattle.zthreads.specs.Endpoints.{SameEndpoint};
ghost use Rattle.zthreads.specs.Owned.{server_endpoint};

use crate::gate::Gate;
use crate::idle::Idle;
use crate::rounds::go_round;
use crate::server_thread::ServerThread;
use std::sync::Wait;
use zchannels::halts::{Halt, HaltSeat};

/// Goes over the links, round after round, until bit 0 is set. At its own bit the server sends its
/// failure notice, and from then on it receives nothing. It sends what waits, and looks at both
/// bits, once a round and before each message. A link without a message costs one look.
pub fn serve<G: Gate, R: Wait>(
    rt: &R,
    mut member: ServerThread,
    mut gate: G,
    halt: &Halt,
    mut seat: HaltSeat,
) -> ServerThread
    requires own { IsSeatOf halt.now seat }
    ensures { SameEndpoint (server_endpoint member) (server_endpoint result) }
{
    let mut idle = Idle::new();
    for _ in rt.forever() {
        idle.begin_round(&member.host);
        let bit = Some(member.bit());
        let Some(is_busy) = go_round(&mut member.host, &mut gate, halt, &mut seat, bit) else {
            return member;
        };
        idle.end_round(rt, &member.host, is_busy);
    }
    unreachable!()
}
