//! How the thread of a process sleeps until there is something to do.
//!
//! # Why
//!
//! A receiver wakes no sender, and a halted receiver never makes room. So a thread with a message
//! that waits for room sleeps only for a short time.

use crate::host::Host;
use std::sync::Wait;
use std::time::Duration;

// The sleep of a thread with a message that waits for room in a ring.
const WAITING_MICROS: u64 = 100;

impl Host {
    /// Marks the thread as about to sleep: from now on a sender of a message to the process wakes
    /// it. It has to look once more for work before it sleeps.
    pub fn lie_down(&self) {
        self.endpoint.bells.lie_down(self.endpoint.me.place());
    }

    /// Marks the thread as awake: from now on no one wakes it.
    pub fn get_up(&self) {
        self.endpoint.bells.get_up(self.endpoint.me.place());
    }

    /// Sleeps until it is woken, or for a time: a short one if a message waits, before a ring or
    /// for memory. It returns at once if it was woken since `lie_down`.
    pub fn sleep<R: Wait>(&self, rt: &R) {
        let place = self.endpoint.me.place();
        if self.endpoint.waits | self.endpoint.held.is_some() | self.front.is_some() {
            let soon = Duration::from_micros(WAITING_MICROS);
            self.endpoint.bells.nap(rt, place, soon);
        } else {
            self.endpoint.bells.sleep(rt, place);
        }
    }
}
