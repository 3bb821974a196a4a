//! What a thread does that found nothing to do.
//!
//! # Why
//!
//! A thread is marked as about to sleep before the round that has to find nothing. That round is
//! the look between the mark and the sleep, so no second look is written.

use crate::host::Host;
use std::sync::Wait;
use std::thread;

// For that many rounds it only yields to other threads; then it sleeps until it is woken.
const EAGER_ROUNDS: u32 = 50;

/// For how many rounds a thread has found nothing to do.
#[derive(Drop)]
pub(crate) struct Idle {
    rounds: u32,
}

impl Idle {
    /// Returns the state of a thread that has just begun.
    pub(crate) fn new() -> Idle {
        Idle { rounds: 0 }
    }

    /// Begins a round. A thread that has long found nothing to do is marked as about to sleep
    /// first, so that whatever comes while it looks wakes it.
    pub(crate) fn begin_round(&self, host: &Host) {
        if self.rounds >= EAGER_ROUNDS {
            host.lie_down();
        }
    }

    /// Ends a round, in which it did something or not. A thread that is about to sleep and found
    /// nothing sleeps.
    pub(crate) fn end_round<R: Wait>(&mut self, rt: &R, host: &Host, was_busy: bool) {
        let was_lying = self.rounds >= EAGER_ROUNDS;
        if was_lying {
            if !was_busy {
                host.sleep(rt);
            }
            host.get_up();
        }
        if was_busy {
            self.rounds = 0;
        } else if !was_lying {
            self.rounds += 1;
            thread::yield_now();
        }
    }
}
