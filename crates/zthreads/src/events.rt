//! The trace of an endpoint.
//!
//! # Why
//!
//! A traced client copies a call for its trace and for its record. A copy costs less than the
//! allocation of a block that both share. An untraced client copies no call and no reply.

ghost use Rattle.std.specs.Prelude.{◌≡◌, true, false, IsFalse, IsTrue, max, option_to_list};
ghost use Rattle.zprotocol.specs.world.History.{History};
ghost use Rattle.zprotocol.specs.declared.traces.trace.Act.{Act};
ghost use Rattle.zprotocol.specs.traces.Stamps.{next_stamp};
ghost use Rattle.zthreads.specs.Endpoints.{HasRoom, HasSeen, HasSeenRoom, HasReported, IsCutForNeed};
ghost use Rattle.zthreads.specs.Endpoints.{IsEntered, IsLostForNeed, Keeps, SameEndpoint, SameRest};
ghost use Rattle.zthreads.specs.Endpoints.{is_cut_of, is_lost_of, is_traced_of, stamp_of_endpoint};
ghost use Rattle.zthreads.specs.Endpoints.{StandsAfter, StandsBeside};

use crate::endpoint::Endpoint;
use crate::limits::MAX_EVENTS;
use zprotocol::traces::{Act, MAX_STAMP, Stamp, TraceEvent};
use zprotocol::world::CallEvent;

impl Endpoint {
    /// Returns the timestamp of its last event.
    pub fn stamp(&self) -> Stamp
        ensures { result ≡ stamp_of_endpoint self.now }
    {
        self.stamp
    }

    /// Returns the timestamp of the next event, if it receives a message with this timestamp. It is
    /// one more than the greater of the two, or else `MAX_STAMP`.
    pub fn next_stamp(&self, taken: Stamp) -> Stamp
        ensures { result ≡ next_stamp (max (stamp_of_endpoint self.now) taken) }
    {
        self.stamp.later(taken).next()
    }

    /// Reserves room for one event in trace and record, if it has them. Returns false if there is
    /// no memory for it.
    pub fn reserve(&mut self) -> bool
        ensures room { IsTrue result → HasRoom self.new }
        ensures needed { IsFalse result → HasRoom self.old → ⊥ }
        ensures keeps { Keeps self.old self.new }
        ensures same { SameRest self.old self.new }
    {
        if !self.is_traced {
            return true;
        }
        if self.trace.reserve(1).is_err() {
            return false;
        }
        self.seen.reserve(1).is_ok()
    }

    /// Appends an event to the trace, and what the caller saw of it to the record, if it has them.
    /// The trace is cut if the timestamp is the last one, or if there is no room for the
    /// event.
    pub fn enter(&mut self, act: Act, stamp: Stamp, reported: Option<CallEvent>)
        ensures stands { StandsAfter self.old self.new act stamp (option_to_list reported) }
        ensures beside { StandsBeside self.old self.new act stamp (option_to_list reported) }
        ensures entered { IsEntered self.old self.new stamp act (option_to_list reported) }
        ensures whole { HasRoom self.old → IsCutForNeed self.old self.new stamp }
        ensures kept { IsLostForNeed self.old self.new stamp }
        ensures stamp { self.new.stamp ≡ stamp }
        ensures rest { (self.new.held ≡ self.old.held) × (self.new.out ≡ self.old.out) }
        ensures same { SameEndpoint self.old self.new }
    {
        self.stamp = stamp;
        if stamp.number() >= MAX_STAMP {
            drop(act);
            drop(reported);
            self.is_cut = true;
            self.is_lost = true;
            return;
        }
        if !self.is_traced {
            drop(act);
            drop(reported);
            return;
        }
        if self.trace.len() >= MAX_EVENTS {
            drop(act);
            drop(reported);
            self.is_cut = true;
            return;
        }
        match self.trace.push(TraceEvent { stamp, act }) {
            Ok(()) => self.tell(reported),
            Err(refused) => {
                drop(refused);
                drop(reported);
                self.is_cut = true;
            }
        }
    }

    /// Returns whether it has a trace and a record.
    pub fn is_traced(&self) -> bool
        ensures { result ≡ is_traced_of self.now }
    {
        self.is_traced
    }

    /// Notes the timestamp of an event, if it has no trace and no record. So the caller makes no
    /// copy of what was done and seen.
    pub fn enter_untraced(&mut self, stamp: Stamp)
        requires { is_traced_of self.old ≡ false }
        ensures stands { (act : Act) (reported : History)
            → StandsAfter self.old self.new act stamp reported }
        ensures beside { (act : Act) (reported : History)
            → StandsBeside self.old self.new act stamp reported }
        ensures whole { (is_cut_of self.old ≡ true) × (is_cut_of self.new ≡ true) }
        ensures kept { IsLostForNeed self.old self.new stamp }
        ensures stamp { self.new.stamp ≡ stamp }
        ensures rest { (self.new.held ≡ self.old.held) × (self.new.out ≡ self.old.out) }
        ensures same { SameEndpoint self.old self.new }
    {
        self.stamp = stamp;
        if stamp.number() < MAX_STAMP {
            return;
        }
        self.is_lost = true;
    }

    // Appends what the caller saw to the record.
    fn tell(&mut self, reported: Option<CallEvent>)
        requires { self.old.is_traced ≡ true }
        ensures stands { HasReported self.old self.new (option_to_list reported) }
        ensures rest { (self.new.held ≡ self.old.held) × (self.new.out ≡ self.old.out) }
        ensures same { SameEndpoint self.old self.new }
        ensures reported { self.new.is_cut ≡ false → HasSeen self.old self.new (option_to_list
            reported) }
        ensures cut { self.new.is_cut ≡ false → self.old.is_cut ≡ false }
        ensures trace { (self.new.trace ≡ self.old.trace) × (self.new.stamp ≡ self.old.stamp) }
        ensures whole { HasSeenRoom self.old → self.new.is_cut ≡ self.old.is_cut }
        ensures kept { is_lost_of self.new ≡ is_lost_of self.old }
    {
        let Some(reported) = reported else {
            return;
        };
        match self.seen.push(reported) {
            Ok(()) => {}
            Err(refused) => {
                drop(refused);
                self.is_cut = true;
            }
        }
    }
}
