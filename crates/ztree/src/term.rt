//! The term of a znode.
//!
//! # Why
//! A container that never had a child stays, by the guide of ZooKeeper: its first child may be on
//! the way. That it had one is seen by `cversion` above 0, as in ZooKeeper.

use crate::limits::CONTAINER_OWNER;
use crate::ttl::Ttl;

/// What a tick may remove a znode for. A node that a session owns has an unlimited term: it is
/// removed when the session ends.
#[derive(Clone, Copy, Debug, PartialEq, Eq)]
pub enum Term {
    /// A tick never removes it.
    Unlimited,
    /// A tick removes it once this time since the last write of its data has passed, if it has no
    /// children (ZooKeeper Programmer's Guide, "TTL Nodes").
    Timed(Ttl),
    /// It is a container. A tick removes it once it has had children and has none (ZooKeeper
    /// Programmer's Guide, "Container Nodes").
    Container,
}

impl Term {
    ghost use Rattle.std.specs.Prelude.{◌≡◌, IsTrue, IsFalse};
    ghost use Rattle.ztree.specs.Stale.{may_end};
    ghost use Rattle.ztree.specs.Tree.{shown_by};

    /// Returns whether a tick never removes a node of this term.
    pub fn is_unlimited(self) -> bool
        ensures yes { IsTrue result → self ≡ Term.Unlimited }
        ensures no { IsFalse result → self ≡ Term.Unlimited → ⊥ }
    {
        match self {
            Term::Unlimited => true,
            Term::Timed(_) | Term::Container => false,
        }
    }

    /// Returns whether a tick may ever remove a node of this term.
    pub fn may_end(self) -> bool
        ensures { result ≡ may_end self }
    {
        match self {
            Term::Unlimited => false,
            Term::Timed(_) | Term::Container => true,
        }
    }

    /// Returns the owner that the stat of a node of this term shows, given its owner.
    pub fn shown_owner(self, owner: u64) -> u64
        ensures { result ≡ shown_by owner self }
    {
        match self {
            Term::Unlimited | Term::Timed(_) => owner,
            Term::Container => CONTAINER_OWNER,
        }
    }
}
