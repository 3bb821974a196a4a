//! The last event's messages go onto the channels.

ghost use Rattle.std.specs.Prelude.{◌≡◌, ◌∷◌, [], false, None, IfNone, IfSome, IsTrue};
ghost use Rattle.zprotocol.specs.world.Does.{last_post};
ghost use Rattle.zthreads.specs.Endpoints.{HasPut, is_cut_of, IsSettled, pending, PutsOn, SameBooks};
ghost use Rattle.zthreads.specs.Endpoints.{SameEndpoint, stamp_of_endpoint, StaysSo};

use crate::endpoint::Endpoint;
use zprotocol::{Message, Process};
use zserver::Snapshot;

impl Endpoint {
    /// Sends the last event's messages. Returns false if there was no memory for all of them: the
    /// rest waits.
    pub fn settle(&mut self) -> bool
        ensures stands { HasPut self.old self.new (pending self.old) (pending self.new) }
        ensures steps { PutsOn self.old self.new (pending self.old) (pending self.new) }
        ensures all { IsTrue result → IsSettled self.new }
        ensures settled { IsSettled self.old → IsSettled self.new }
        ensures same { SameEndpoint self.old self.new }
        ensures books { SameBooks self.old self.new }
    {
        while let Some((to, message)) = self.next_post() {
            if !self.put_on_link(to, message) {
                return false;
            }
        }
        true
    }

    // Removes the next message that isn't on its channel yet.
    pub(crate) fn next_post(&mut self) -> Option<(Process, Message<Snapshot>)>
        ensures none { IfNone result ((pending self.old ≡ []) × (self.new.out.posts ≡ [])) }
        ensures some { IfSome result (λ post. pending self.old ≡ post ∷ self.new.out.posts) }
        ensures held { self.new.held ≡ None }
        ensures steps { StaysSo self.old self.new }
        ensures same { SameEndpoint self.old self.new }
        ensures books { SameBooks self.old self.new }
    {
        if self.held.is_none() {
            return self.out.next();
        }
        self.held.take()
    }

    // Sends one message, or holds it for later. A process without an index isn't part of this run:
    // its message is dropped.
    fn put_on_link(&mut self, to: Process, message: Message<Snapshot>) -> bool
        requires { self.old.held ≡ None }
        ensures steps { PutsOn self.old self.new
            ((to, message) ∷ self.old.out.posts) (pending self.new) }
        ensures held { IsTrue result → self.new.held ≡ None }
        ensures out { self.new.out ≡ self.old.out }
        ensures same { SameEndpoint self.old self.new }
        ensures books { SameBooks self.old self.new }
    {
        let place = to.place();
        if place >= self.outs.len() {
            drop(message);
            return true;
        }
        let out = &mut self.outs[place];
        match out.put((self.stamp, message)) {
            Ok(()) => {
                self.waits |= out.has_waiting();
                self.bells.ring(place);
                true
            }
            Err((_, message)) => {
                drop(self.held.replace((to, message)));
                false
            }
        }
    }

    /// Sends the failure notice of a server, for which its channel to the master has a slot. It
    /// takes no memory.
    pub fn put_gone(&mut self)
        ensures stands { HasPut self.old self.new last_post [] }
        ensures books { is_cut_of self.new ≡ false → SameBooks self.old self.new }
        ensures rest { (self.new.held ≡ self.old.held) × (self.new.out ≡ self.old.out) }
        ensures stamp { stamp_of_endpoint self.new ≡ stamp_of_endpoint self.old }
        ensures same { SameEndpoint self.old self.new }
    {
        self.waits = true;
        if self.outs.len() == 0 {
            self.is_cut = true;
            self.is_lost = true;
            return;
        }
        if let Err(refused) = self.outs[0].put_last((self.stamp, Message::Gone)) {
            drop(refused);
            self.is_cut = true;
            self.is_lost = true;
        }
    }
}
