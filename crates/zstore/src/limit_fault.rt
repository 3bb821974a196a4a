//! Why a tree doesn't fit within limits.

ghost use Rattle.std.specs.Prelude.{◌≡◌};
ghost use Rattle.zstore.specs.declared.limit_fault.LimitFault.TheVariants.{Memory as no_memory};

use thiserror::Error;
use zalloc::Memory;

/// Why a tree doesn't fit within limits.
#[derive(Clone, Copy, Debug, PartialEq, Eq, Error)]
pub enum LimitFault {
    /// No tree can have these limits.
    #[error("no tree can have these limits")]
    NotLimits,
    /// The tree has this many nodes, which are more.
    #[error("the tree has {0} nodes")]
    Nodes(usize),
    /// The tree has this many sessions, which are more.
    #[error("the tree has {0} sessions")]
    Sessions(usize),
    /// A session has this timeout in ticks, which is greater.
    #[error("a session has a timeout of {0} ticks")]
    Timeout(u64),
    /// Out of memory.
    #[error("out of memory")]
    Memory,
}

impl From<Memory> for LimitFault {
    ghost from_gives = { λ _ fault. fault ≡ no_memory };

    fn from(_memory: Memory) -> LimitFault {
        LimitFault::Memory
    }
}
