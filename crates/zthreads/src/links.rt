//! The channels of an endpoint.
//!
//! # Why
//!
//! A flush wakes the receiver only if it moved a message. Else a client would wake a halted server
//! at each `turn`.

ghost use Rattle.std.specs.Prelude.{◌≡◌, ◌<◌, IsFalse, IsTrue, None, true};
ghost use Rattle.zthreads.specs.Endpoints.{HasTaken, Keeps, SameRest, link_count, wires_of};
ghost use Rattle.zthreads.specs.Waiting.{AreFlushed, NothingWaits, SeesNothing, SeesSome};

use crate::endpoint::{Endpoint, Stamped};
use zprotocol::Process;

impl Endpoint {
    /// Returns how many channels it receives from.
    pub fn links(&self) -> usize
        ensures { result ≡ link_count self.now }
    {
        self.ins.len()
    }

    /// Returns whether it finds no message in the ring of a channel.
    #[tactic(auto, using(crate::proofs::Waiting::sees_nothing, crate::proofs::Waiting::sees_some))]
    pub fn is_empty(&mut self, link: usize) -> bool
        requires { link < link_count self.old }
        ensures none { IsTrue result → SeesNothing link (wires_of self.new).0 }
        ensures some { IsFalse result → SeesSome link (wires_of self.new).0 }
        ensures keeps { Keeps self.old self.new }
        ensures same { SameRest self.old self.new }
    {
        self.ins[link].is_empty()
    }

    /// Receives the next message of a channel, with its sender. Returns `None` if its ring has
    /// none.
    pub fn take(&mut self, link: usize) -> Option<(Process, Stamped)>
        requires { link < link_count self.old }
        ensures taken { HasTaken self.old self.new None result }
        ensures same { SameRest self.old self.new }
    {
        let Some(from) = Process::at(link) else {
            return None;
        };
        let Some(message) = self.ins[link].take() else {
            return None;
        };
        Some((from, message))
    }

    /// Moves the messages that wait into the rings, as far as there is room.
    pub fn flush(&mut self)
        ensures flushed { AreFlushed (wires_of self.new).1 }
        ensures keeps { Keeps self.old self.new }
        ensures same { SameRest self.old self.new }
    {
        if self.waits {
            self.waits = self.flush_all();
        }
    }

    // Flushes every channel; returns whether a message still waits.
    fn flush_all(&mut self) -> bool
        requires { self.old.waits ≡ true }
        ensures waits { self.new.waits ≡ true }
        ensures none { IsFalse result → NothingWaits self.new.outs.items }
        ensures flushed { AreFlushed self.new.outs.items }
        ensures keeps { Keeps self.old self.new }
        ensures same { SameRest self.old self.new }
    {
        let mut waits = false;
        for link in 0..self.outs.len() {
            let out = &mut self.outs[link];
            let is_moved = out.flush();
            waits |= out.has_waiting();
            if is_moved {
                self.bells.ring(link);
            }
        }
        waits
    }
}
