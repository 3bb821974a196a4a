//! Why a call was refused.
//!
//! # Why
//! No refusal guards a node's version or cversion. Zxids stay below 2^40 (`Exhausted`), and one
//! change raises each at most 2^21 times. So no counter overflows.

use std::fmt;
use thiserror::Error;

/// Why a call was refused. A refused call changes nothing.
#[derive(Clone, Copy, Debug, PartialEq, Eq, Error)]
pub enum Refusal {
    /// The node doesn't exist.
    NoNode,
    /// The node already exists.
    NodeExists,
    /// The node has children.
    NotEmpty,
    /// The node has a different version.
    BadVersion,
    /// The parent is ephemeral.
    NoChildrenForEphemerals,
    /// The session doesn't exist, or belongs to another client.
    SessionGone,
    /// The parent's counter has given its last number.
    SequenceFull,
    /// The resulting name or path would be too long.
    PathLimit,
    /// The root can't be deleted.
    RootFixed,
    /// The tree already has as many nodes as its limits allow.
    Full,
    /// There are already as many sessions as the tree's limits allow.
    TooManySessions,
    /// The last zxid has been used up; or, for a tick, the last tick.
    Exhausted,
}

impl fmt::Display for Refusal {
    ghost use Rattle.std.specs.Prelude.{Some};
    ghost use Rattle.zcalls.specs.Step.{refusal_name};

    ghost output = { λ refusal. Some (refusal_name refusal) };

    fn fmt<W: fmt::Write>(&self, f: &mut fmt::Formatter<W>) -> fmt::Result {
        f.write_str(match self {
            Refusal::NoNode => "NoNode",
            Refusal::NodeExists => "NodeExists",
            Refusal::NotEmpty => "NotEmpty",
            Refusal::BadVersion => "BadVersion",
            Refusal::NoChildrenForEphemerals => "NoChildrenForEphemerals",
            Refusal::SessionGone => "SessionGone",
            Refusal::SequenceFull => "SequenceFull",
            Refusal::PathLimit => "PathLimit",
            Refusal::RootFixed => "RootFixed",
            Refusal::Full => "Full",
            Refusal::TooManySessions => "TooManySessions",
            Refusal::Exhausted => "Exhausted",
        })
    }
}
