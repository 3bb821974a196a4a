//! One round of a thread over the links of its process.

ghost use Rattle.std.specs.Prelude.{◌≡◌, ◌≤◌, IfSome, IsFalse, IsTrue, false, true};
ghost use Rattle.zchannels.specs.declared.limits.TheConstants.{LAST_BIT};
ghost use Rattle.zchannels.specs.HaltSeats.{Found, IsSeatOf};
ghost use Rattle.zprotocol.specs.declared.traces.trace.Act.TheVariants.{Halted};
ghost use Rattle.zactor.specs.Acting.{has_stopped};
ghost use Rattle.zactor.specs.declared.done.Done.{Done};
ghost use Rattle.zactor.specs.declared.handed.Handed.{Handed};
ghost use Rattle.zactor.specs.declared.handed.Handed.TheVariants.{Nothing};
ghost use Rattle.zthreads.specs.Endpoints.{process_of};
ghost use Rattle.zthreads.specs.Hosts.{DidIdle, host_endpoint, host_standing, Received};
ghost use Rattle.zthreads.specs.Acts.{DidNext};
ghost use Rattle.zthreads.specs.Rounds.{bit_of, LetsTake, WentOn};

use crate::gate::Gate;
use crate::host::Host;
use zactor::{Handed, Input};
use zchannels::halts::{Halt, HaltSeat};
use zchannels::looks::Look;

/// Goes over the links once, with the bit at which the process stops, if it has one. Returns
/// whether a message was received, or `None` where bit 0 is set. It sends what waits, and looks at
/// the bits, once a round and before each message. A link without a message costs one look.
pub(crate) fn go_round<G: Gate>(
    host: &mut Host,
    gate: &mut G,
    halt: &Halt,
    seat: &mut HaltSeat,
    bit: Option<u32>,
) -> Option<bool>
    requires seat { IsSeatOf halt.now seat.old }
    requires bit { bit ≡ bit_of (process_of (host_endpoint host.old)) }
    requires small { IfSome bit (λ s. s ≤ LAST_BIT) }
    ensures seat { IsSeatOf halt.now seat.new }
    ensures went { WentOn (host_endpoint host.old) (host_endpoint host.new) }
{
    let _ = watch(host, halt, seat, bit)?;
    let links = host.links();
    let mut is_busy = false;
    for link in 0..links {
        if host.finds_nothing(link) {
            continue;
        }
        let Some(look) = watch(host, halt, seat, bit)? else {
            continue;
        };
        is_busy |= receive(host, link, gate, look);
    }
    Some(is_busy)
}

// Sends what waits, and looks at the bits. Returns `None` where bit 0 is set. At its own bit the
// process stops; else a look is returned, for one message.
fn watch(
    host: &mut Host,
    halt: &Halt,
    seat: &mut HaltSeat,
    bit: Option<u32>,
) -> Option<Option<Look>>
    requires seat { IsSeatOf halt.now seat.old }
    requires small { IfSome bit (λ s. s ≤ LAST_BIT) }
    ensures seat { IsSeatOf halt.now seat.new }
    ensures look { IfSome result (λ sight. IfSome sight (λ look. LetsTake look bit)) }
    ensures went { WentOn (host_endpoint host.old) (host_endpoint host.new) }
{
    host.flush();
    let look = halt.look(seat);
    if look.has(0) {
        return None;
    }
    if is_halted(&look, bit) {
        // If there is no memory for the notice, the next look tries again.
        let _ = stop(host);
        return Some(None);
    }
    Some(Some(look))
}

// Returns whether the look found this bit, if there is one.
fn is_halted(look: &Look, bit: Option<u32>) -> bool
    requires small { IfSome bit (λ s. s ≤ LAST_BIT) }
    ensures { IsFalse result → IfSome bit (λ s. Found look.now s → ⊥) }
{
    match bit {
        Some(s) => look.has(s),
        None => false,
    }
}

// Receives one message of a link and acts on it, once all is sent that the last event sent. Returns
// false where nothing was received, as by a process that has stopped. It consumes a look, which
// found neither the run ended nor this process halted.
fn receive<G: Gate>(host: &mut Host, link: usize, gate: &mut G, look: Look) -> bool
    requires look { LetsTake look (bit_of (process_of (host_endpoint host.old))) }
    ensures idle { IsFalse result → DidIdle host.old host.new }
    ensures runs { IsTrue result → has_stopped (host_standing host.old) ≡ false }
    ensures received { IsTrue result
        → (done : Done) × (handed : Handed) × Received host.old host.new Nothing handed done }
    ensures went { WentOn (host_endpoint host.old) (host_endpoint host.new) }
{
    drop(look);
    let mut handed = Handed::Nothing;
    let done = host.turn(link, gate, &mut handed);
    drop(handed);
    let Some(done) = done else {
        return false;
    };
    drop(done);
    true
}

// A server sends its failure notice, once all is sent that the last event sent. Returns true once
// it has stopped, and false where it has to be tried again, for memory.
fn stop(host: &mut Host) -> bool
    ensures idle { IsFalse result → DidIdle host.old host.new }
    ensures over { IsTrue result → has_stopped (host_standing host.new) ≡ true }
    ensures once { has_stopped (host_standing host.old) ≡ true → DidIdle host.old host.new }
    ensures halted { IsTrue result → has_stopped (host_standing host.old) ≡ false
        → DidNext (host_endpoint host.old) (host_endpoint host.new) Halted }
    ensures went { WentOn (host_endpoint host.old) (host_endpoint host.new) }
{
    if host.has_stopped() {
        return true;
    }
    match host.give(Input::Stop) {
        Ok(done) => {
            drop(done);
            true
        }
        Err(fault) => {
            drop(fault);
            false
        }
    }
}
