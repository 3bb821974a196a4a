//! Wakes threads that sleep because they found nothing to do.
//!
//! This crate begins the wing "threads", which runs each server in a thread of its own. `zchannels`
//! has the channels between processes, `zthreads` a process in its thread, `zrun` a cluster,
//! `zaudit` the audit of its traces. Read `zrun` next.
//!
//! A thread stores that it will sleep, then looks once more for work. A sender stores its message,
//! then loads whether the receiver sleeps. All these steps are `SeqCst`, so one of the two sees the
//! other.
//!
//! # Why
//!
//! A thread without work sleeps, so spare servers cost the others no time. Waking costs a sender
//! one load if the receiver is awake. No clause says that a thread is woken: tests see it.

mod bells;

pub use bells::{Bells, SLEEP_MILLIS, limits_are_numbers};
