//! What a server accepts in requests.

ghost use Rattle.std.specs.Prelude.{◌≡◌, ◌⊎◌, ◌<◌, ◌≤◌, IfNone, IfSome};

use crate::tick::TickLength;
use std::marker::Model;
use zcalls::{MAX_PARTS, MOST_PARTS};
use ztree::{MAX_DATA, MOST_DATA};

/// What a server accepts in requests. It is chosen when the server starts.
#[derive(Clone, Copy, Debug, PartialEq, Eq)]
pub struct Terms {
    tick: TickLength,
    bytes: usize,
    parts: usize,
}

impl Model for Terms {
    ghost use Rattle.zrequests.specs.Terms as terms;

    ghost Value = { terms.Terms };

    ghost view = { λ t. record { tick = t.tick; bytes = t.bytes; parts = t.parts } };

    ghost invariant = { λ t. terms.AreTerms
        (record { tick = t.tick; bytes = t.bytes; parts = t.parts }) };

    ghost inverse = { λ t. record { tick = t.tick; bytes = t.bytes; parts = t.parts } };
}

impl Terms {
    ghost use Rattle.zrequests.specs.Terms.{AreTerms, profile};

    /// Returns these terms: a tick, the greatest size of a node's data in bytes, and the most parts
    /// of a multi. Returns `None` if a limit is too great, or if there are to be no parts.
    pub fn new(tick: TickLength, bytes: usize, parts: usize) -> Option<Terms>
        ensures some { IfSome result
            (λ terms. terms ≡ record { tick = tick; bytes = bytes; parts = parts }) }
        ensures are { IfSome result AreTerms }
        ensures none { IfNone result
            (AreTerms (record { tick = tick; bytes = bytes; parts = parts }) → ⊥) }
    {
        if 0 < parts && parts <= MOST_PARTS && bytes <= MOST_DATA {
            Some(Terms { tick, bytes, parts })
        } else {
            None
        }
    }

    /// Returns the terms of the profile: 65,536 bytes, and 64 parts.
    pub fn profile(tick: TickLength) -> Terms
        ensures { result ≡ profile tick }
    {
        Terms {
            tick,
            bytes: MAX_DATA,
            parts: MAX_PARTS,
        }
    }

    /// Returns the length of a tick.
    pub fn tick(self) -> TickLength
        ensures { result ≡ self.tick }
    {
        self.tick
    }

    /// Returns the greatest size of a node's data, in bytes.
    pub fn data(self) -> usize
        ensures same { result ≡ self.bytes }
        ensures few { result ≤ MOST_DATA }
    {
        self.bytes
    }

    /// Returns the most parts of a multi, which are the most looks of a multiRead, too.
    pub fn parts(self) -> usize
        ensures same { result ≡ self.parts }
        ensures some { 0 < result }
        ensures few { result ≤ MOST_PARTS }
    {
        self.parts
    }
}
