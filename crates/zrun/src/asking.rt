//! A call that waits for its reply up to a time limit.
//!
//! # Why
//!
//! No clause says that a call is sent again: a body that never tries looks like one out of memory.
//! So a test counts the resends in the trace.

ghost use Rattle.std.specs.Prelude.{◌≡◌, IfErr, IfOk};
ghost use Rattle.zthreads.specs.Callers.{SameLearnt};
ghost use Rattle.zrun.specs.declared.asking.TheConstants.{TURNS};
ghost use Rattle.zrun.specs.Asked.{AskedWithinInVain, AskedWithinUntil};
ghost use Rattle.zrun.specs.Asked.{InsistedWithinInVain, InsistedWithinUntil};
ghost use Rattle.zrun.specs.Clients.{BeganNothing, caller_of, SameClient, SameSeat};

use crate::client::Client;
use crate::faults::Unanswered;
use std::time::{Clock, Duration, Instant};
use zcalls::{Call, Reply};

/// How often a client calls `turn` between two looks at the clock. Then it sends the call again.
pub const TURNS: u64 = 2_000;

/// The limit, as a number.
pub fn limit_is_a_number()
    ensures { TURNS ≡ 2000 }
{}

impl Client {
    /// Invokes a call, and waits for its reply up to this limit. Meanwhile it sends the same call
    /// again, which takes effect at most once. It may return later than the limit, by `TURNS` calls
    /// of `turn`. If the clock fails, it waits no longer.
    pub fn ask_within<C: Clock>(
        &mut self,
        clock: &C,
        call: Call,
        limit: Duration,
    ) -> Result<Reply, Unanswered>
        ensures reply { IfOk result (AskedWithinUntil call self.old self.new) }
        ensures unanswered { IfErr result (AskedWithinInVain call self.old self.new) }
        ensures refused { IfErr result (BeganNothing self.old self.new) }
        ensures learnt { SameLearnt (caller_of self.old) (caller_of self.new) }
        ensures same { SameClient self.old self.new }
        ensures seat { SameSeat self.old self.new }
    {
        // The number of the call isn't needed here.
        let _ = self.begin(call)?;
        let began = Instant::now(clock).ok();
        if let Ok(reply) = self.wait(TURNS) {
            return Ok(reply);
        }
        self.insist_within(clock, began, limit)
    }

    // Sends the call again, and waits, while it has no reply and there is time.
    fn insist_within<C: Clock>(
        &mut self,
        clock: &C,
        began: Option<Instant>,
        limit: Duration,
    ) -> Result<Reply, Unanswered>
        ensures reply { IfOk result (InsistedWithinUntil (caller_of self.old) (caller_of
            self.new)) }
        ensures unanswered { IfErr result (InsistedWithinInVain self.old self.new) }
        ensures learnt { SameLearnt (caller_of self.old) (caller_of self.new) }
        ensures same { SameClient self.old self.new }
        ensures seat { SameSeat self.old self.new }
    {
        for _ in 0..u64::MAX {
            if is_over(clock, began, limit) {
                return Err(Unanswered::NoAnswer);
            }
            self.send_again();
            if let Ok(reply) = self.wait(TURNS) {
                return Ok(reply);
            }
        }
        Err(Unanswered::NoAnswer)
    }
}

// Returns whether that much time has passed since then, or the clock fails.
fn is_over<C: Clock>(clock: &C, began: Option<Instant>, limit: Duration) -> bool {
    match began {
        Some(began) => match began.elapsed(clock) {
            Ok(gone) => gone >= limit,
            Err(_) => true,
        },
        None => true,
    }
}
