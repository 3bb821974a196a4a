//! The time to live of a znode.
//!
//! # Why
//! The guide lets a server remove an expired node some time later. Here a tick removes exactly the
//! due nodes without children, so that the specification is a function. A node whose last child is
//! removed at a tick stays until the next one.
//!
//! `Ttl` is in this crate since the kinds of a create (`zcalls`) need it without a store. The root
//! has no TTL, or a tick could remove it.

ghost use Rattle.std.specs.Prelude.{◌≡◌, IfNone, IfSome};
ghost use Rattle.ztree.specs.Ttls.{IsTtl};

use crate::limits::MAX_TTL;
use std::marker::Model;

/// A time to live (ZooKeeper Programmer's Guide, "TTL Nodes"). Counting it in ticks, from 1 to
/// 1,048,576, is this project's profile.
#[derive(Clone, Copy, Debug, PartialEq, Eq)]
pub struct Ttl {
    ticks: u64,
}

impl Model for Ttl {
    ghost use Rattle.std.specs.Prelude.{ℕ};
    ghost use Rattle.ztree.specs.Ttls.{IsTtl};

    ghost Value = { ℕ };

    ghost view = { λ ttl. ttl.ticks };

    ghost invariant = { λ ttl. IsTtl ttl.ticks };

    ghost inverse = { λ n. record { ticks = n } };
}

impl Ttl {
    /// Returns a TTL of this many ticks; `None` for 0 and above 1,048,576.
    pub fn new(ticks: u64) -> Option<Ttl>
        ensures ttl { IfSome result (λ ttl. (ttl ≡ ticks) × IsTtl ticks) }
        ensures none { IfNone result (IsTtl ticks → ⊥) }
    {
        if 0 < ticks && ticks <= MAX_TTL {
            Some(Ttl { ticks })
        } else {
            None
        }
    }

    /// Returns the number of ticks.
    pub fn ticks(self) -> u64
        ensures same { result ≡ self }
        ensures within { IsTtl result }
    {
        self.ticks
    }
}
