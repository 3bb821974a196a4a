//! A client, as its caller's thread owns it.
//!
//! # Why
//!
//! A client's `Wiring` says who it is and on which rings it sends and receives, and so of which run
//! it is. A `Snapshot` of the run in the client would say the same, but then the prover doesn't
//! find that a client may be sent to another thread.

ghost use Rattle.std.specs.Prelude.{◌≡◌, ◌^◌, bit_or, IfErr, IfOk, OnErr, OnOk, Some, max};
ghost use Rattle.std.specs.Arc.{arc_value};
ghost use Rattle.zchannels.specs.HaltSeats.{IsSeatOf, Knows, known_of};
ghost use Rattle.zthreads.specs.Callers.{Began, caller_stamp, caller_view, IsUncut, MayRefuse};
ghost use Rattle.zthreads.specs.Callers.{Retried, SameCaller, SameLearnt, Turned};

use crate::faults::Unanswered;
use crate::patience::Patience;
use std::alloc::Global;
use std::sync::Arc;
use std::thread;
use zalloc::Memory;
use zcalls::{Call, CallNumber, ClientId, Reply};
use zchannels::bells::Bells;
use zchannels::halts::{Halt, HaltSeat};
use zclient::BeginFault;
use zprotocol::traces::Stamp;
use zprotocol::{Process, ServerId};
use zthreads::Caller;

/// A client of one run, through all its calls. No call blocks.
#[derive(Drop)]
pub struct Client {
    pub(crate) caller: Caller,
    pub(crate) halt: Arc<Halt, Global>,
    pub(crate) seat: HaltSeat,
    pub(crate) bells: Bells,
    ghost own: { IsSeatOf (arc_value halt) seat },
}

impl Client {
    ghost use Rattle.zrun.specs.Clients.{BeganNothing, CalledInVain, CalledUntil, caller_of};
    ghost use Rattle.zrun.specs.Clients.{halt_seat, number_of, SameClient, SameSeat, TurnedUntil};
    ghost use Rattle.zrun.specs.Clients.{WaitedInVain};
    ghost use Rattle.zrun.specs.Asked.{CalledPatientlyInVain, CalledPatientlyUntil, GaveUp};
    ghost use Rattle.zrun.specs.Asked.{InsistedUntil, SentAgain};

    /// Invokes a call, and returns its number.
    pub fn begin(&mut self, call: Call) -> Result<CallNumber, BeginFault>
        ensures began { IfOk result (Began (caller_of self.old) (caller_of self.new) call) }
        ensures fault { IfErr result (MayRefuse (caller_view (caller_of self.old))) }
        ensures refused { OnErr result (SameCaller (caller_of self.old) (caller_of self.new)) }
        ensures whole { OnOk result (IsUncut (caller_of self.old) (caller_of self.new)) }
        ensures learnt { SameLearnt (caller_of self.old) (caller_of self.new) }
        ensures same { SameClient self.old self.new }
        ensures seat { SameSeat self.old self.new }
    {
        self.caller.begin(call)
    }

    /// Receives at most one message. Returns the reply of the outstanding call, if the message is
    /// it.
    pub fn turn(&mut self) -> Option<Reply>
        ensures turned { Turned (caller_of self.old) (caller_of self.new) result }
        ensures whole { IsUncut (caller_of self.old) (caller_of self.new) }
        ensures learnt { SameLearnt (caller_of self.old) (caller_of self.new) }
        ensures same { SameClient self.old self.new }
        ensures seat { SameSeat self.old self.new }
    {
        self.caller.turn()
    }

    /// Sends the outstanding call once more. Returns false where there is none.
    pub fn retry(&mut self) -> Result<bool, Memory>
        ensures retried { IfOk result (Retried (caller_of self.old) (caller_of self.new)) }
        ensures refused { OnErr result (SameCaller (caller_of self.old) (caller_of self.new)) }
        ensures whole { OnOk result (IsUncut (caller_of self.old) (caller_of self.new)) }
        ensures learnt { SameLearnt (caller_of self.old) (caller_of self.new) }
        ensures same { SameClient self.old self.new }
        ensures seat { SameSeat self.old self.new }
    {
        self.caller.retry()
    }

    /// Halts a server by setting its bit, and no other bit. Once its thread sees the bit the server
    /// receives nothing more, and the master hears that it is gone.
    pub fn halt(&mut self, server: ServerId)
        ensures set { Knows (halt_seat self.new) server }
        ensures only { known_of (halt_seat self.new)
            ≡ bit_or (known_of (halt_seat self.old)) (2 ^ server) }
        ensures caller { caller_of self.new ≡ caller_of self.old }
        ensures same { SameClient self.old self.new }
    {
        self.halt.set(&mut self.seat, server.number() as u32);
        self.bells.ring(Process::Server(server).place());
    }

    /// Returns its number.
    pub fn id(&self) -> ClientId
        ensures { result ≡ number_of self.now }
    {
        self.caller.id()
    }

    /// Returns the head of the chain, by the master's last message that this client received, or
    /// `None` if that said that no server is left. The client receives messages only in `turn`.
    pub fn head(&self) -> Option<ServerId>
        ensures { result ≡ (caller_view (caller_of self.now)).head }
    {
        self.caller.head()
    }

    /// Returns the tail of the chain, by the master's last message that this client received.
    pub fn tail(&self) -> Option<ServerId>
        ensures { result ≡ (caller_view (caller_of self.now)).tail }
    {
        self.caller.tail()
    }

    /// Returns the last Lamport timestamp that it knows.
    pub fn stamp(&self) -> Stamp
        ensures { result ≡ caller_stamp (caller_of self.now) }
    {
        self.caller.stamp()
    }

    /// From now on its events are later than this timestamp, through all calls. So a client that
    /// learns another's timestamp sees all that the other one saw.
    pub fn learn(&mut self, stamp: Stamp)
        ensures stamp { caller_stamp (caller_of self.new)
            ≡ max (caller_stamp (caller_of self.old)) stamp }
        ensures idle { SameCaller (caller_of self.old) (caller_of self.new) }
        ensures same { SameClient self.old self.new }
        ensures seat { SameSeat self.old self.new }
    {
        self.caller.learn(stamp);
    }

    /// Invokes a call, and calls `turn` at most `turns` times for its reply.
    pub fn call(&mut self, call: Call, turns: u64) -> Result<Reply, Unanswered>
        ensures reply { IfOk result (CalledUntil turns call self.old self.new) }
        ensures unanswered { IfErr result (CalledInVain turns call self.old self.new) }
        ensures refused { IfErr result (BeganNothing self.old self.new) }
        ensures learnt { SameLearnt (caller_of self.old) (caller_of self.new) }
        ensures same { SameClient self.old self.new }
        ensures seat { SameSeat self.old self.new }
    {
        // The number of the call isn't needed here.
        let _ = self.begin(call)?;
        self.wait(turns)
    }

    /// Invokes a call, and waits for its reply. While there is none, the same call is sent again.
    /// It takes effect at most once. A resend without memory is skipped.
    pub fn ask(&mut self, call: Call, patience: Patience) -> Result<Reply, Unanswered>
        ensures reply { IfOk result (CalledPatientlyUntil patience call self.old self.new) }
        ensures unanswered { IfErr result (CalledPatientlyInVain patience call self.old self.new) }
        ensures refused { IfErr result (BeganNothing self.old self.new) }
        ensures learnt { SameLearnt (caller_of self.old) (caller_of self.new) }
        ensures same { SameClient self.old self.new }
        ensures seat { SameSeat self.old self.new }
    {
        // The number of the call isn't needed here.
        let _ = self.begin(call)?;
        if let Ok(reply) = self.wait(patience.turns) {
            return Ok(reply);
        }
        self.insist(patience)
    }

    // Sends the call again, and waits, while it has no reply.
    fn insist(&mut self, patience: Patience) -> Result<Reply, Unanswered>
        ensures reply { IfOk result
            (InsistedUntil patience (caller_of self.old) (caller_of self.new)) }
        ensures unanswered { IfErr result (GaveUp patience self.old self.new) }
        ensures learnt { SameLearnt (caller_of self.old) (caller_of self.new) }
        ensures same { SameClient self.old self.new }
        ensures seat { SameSeat self.old self.new }
    {
        for _ in 0..patience.retries {
            self.send_again();
            if let Ok(reply) = self.wait(patience.turns) {
                return Ok(reply);
            }
        }
        Err(Unanswered::NoAnswer)
    }

    // Sends the call again, if there is memory for it. Without it, the next `turn` may still return
    // the reply.
    pub(crate) fn send_again(&mut self)
        ensures sent { SentAgain (caller_of self.old) (caller_of self.new) }
        ensures learnt { SameLearnt (caller_of self.old) (caller_of self.new) }
        ensures same { SameClient self.old self.new }
        ensures seat { SameSeat self.old self.new }
    {
        match self.retry() {
            Ok(_) => {}
            Err(Memory) => {}
        }
    }

    /// Calls `turn` at most `turns` times for the reply of the outstanding call. The only error is
    /// `NoAnswer`.
    pub fn wait(&mut self, turns: u64) -> Result<Reply, Unanswered>
        ensures reply { IfOk result (TurnedUntil turns (caller_of self.old) (caller_of self.new)) }
        ensures unanswered { IfErr result (WaitedInVain turns self.old self.new) }
        ensures learnt { SameLearnt (caller_of self.old) (caller_of self.new) }
        ensures same { SameClient self.old self.new }
        ensures seat { SameSeat self.old self.new }
    {
        for _ in 0..turns {
            match self.turn() {
                Some(reply) => return Ok(reply),
                None => thread::yield_now(),
            }
        }
        Err(Unanswered::NoAnswer)
    }
}
