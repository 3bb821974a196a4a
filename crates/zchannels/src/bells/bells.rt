//! One word per thread of a run, which says whether the thread sleeps.
//!
//! # Why
//!
//! A sleep ends after 20 milliseconds at the latest, so a lost wake-up costs no more. Nothing wakes
//! a thread once memory is available again, so it also tries again that often.

ghost use Rattle.std.specs.Prelude.{◌≡◌};
ghost use Rattle.zchannels.specs.declared.bells.bells.TheConstants.{SLEEP_MILLIS};

use crossbeam_utils::CachePadded;
use std::alloc::Global;
use std::sync::atomic::AtomicU64;
use std::sync::atomic::Ordering::SeqCst;
use std::sync::{Arc, Wait};
use std::time::Duration;
use zalloc::Memory;

/// The longest sleep of a cluster's thread, in milliseconds.
pub const SLEEP_MILLIS: u64 = 20;

/// The limit is this number.
pub fn limits_are_numbers()
    ensures sleep { SLEEP_MILLIS ≡ 20 }
{}

// The thread is awake.
const UP: u64 = 0;

// The thread sleeps, or is about to.
const LYING: u64 = 1;

/// Wakes the threads of a run, each by its index. A copy wakes the same threads.
#[derive(Drop)]
pub struct Bells {
    pub(crate) words: Arc<Vec<CachePadded<AtomicU64>>, Global>,
    pub(crate) longest: Duration,
}

impl Bells {
    ghost use Rattle.std.specs.Prelude.{IfOk};
    ghost use Rattle.std.specs.Duration.{as_nanos};
    ghost use Rattle.zchannels.specs.bells.Bells.{bell_count, longest_of};

    /// Returns the bells of `count` threads, which are awake. A thread sleeps for at most `longest`
    /// at a time. The only error is out of memory.
    pub fn new(alloc: Global, count: usize, longest: Duration) -> Result<Bells, Memory>
        ensures count { IfOk result (λ bells. bell_count bells ≡ count) }
        ensures longest { IfOk result (λ bells. longest_of bells ≡ as_nanos longest) }
    {
        let mut words = Vec::with_capacity(alloc, count)?;
        for _ in 0..count {
            words.push(CachePadded::new(AtomicU64::new(UP)))?;
        }
        let words = Arc::new(alloc, words)?;
        Ok(Bells { words, longest })
    }

    /// Returns a copy. The only error is out of memory.
    pub fn copied(&self) -> Result<Bells, Memory>
        ensures count { IfOk result (λ bells. bell_count bells ≡ bell_count self.now) }
        ensures longest { IfOk result (λ bells. longest_of bells ≡ longest_of self.now) }
    {
        let words = Arc::try_clone(&self.words)?;
        Ok(Bells {
            words,
            longest: self.longest,
        })
    }

    /// Wakes the thread at this index, if it sleeps or is about to. An index out of range is
    /// ignored.
    pub fn ring(&self, place: usize) {
        if place >= self.words.len() {
            return;
        }
        let word = &*self.words[place];
        if word.load(SeqCst) == LYING {
            word.store(UP, SeqCst);
            word.wake_one();
        }
    }

    /// Wakes all threads.
    pub fn ring_all(&self) {
        for place in 0..self.words.len() {
            self.ring(place);
        }
    }

    /// Marks the thread at this index as about to sleep: from now on `ring` wakes it. It has to
    /// look once more for work before it sleeps.
    pub fn lie_down(&self, place: usize) {
        if place < self.words.len() {
            self.words[place].store(LYING, SeqCst);
        }
    }

    /// Marks the thread at this index as awake: `ring` then does nothing.
    pub fn get_up(&self, place: usize) {
        if place < self.words.len() {
            self.words[place].store(UP, SeqCst);
        }
    }

    /// Sleeps until `ring` wakes the thread at this index, but no longer than the longest time. It
    /// returns at once if `ring` was called since `lie_down`, and it may wake for no reason.
    pub fn sleep<R: Wait>(&self, rt: &R, place: usize) {
        self.nap(rt, place, self.longest);
    }

    /// Does the same, but sleeps no longer than `at_most`.
    pub fn nap<R: Wait>(&self, rt: &R, place: usize, at_most: Duration) {
        if place < self.words.len() {
            self.words[place].park_timeout(rt, LYING as u32, at_most);
        }
    }
}
