//! A client's request, or why a line is refused.

ghost use Rattle.std.specs.Prelude.{◌≡◌};
ghost use Rattle.zscript_text.specs.declared.request.LineFault.TheVariants.{Memory};

use std::alloc::AllocFailed;
use zcalls::{Call, ClientId};
use zpath::PathFault;

/// A call of a client.
#[derive(Drop)]
pub struct Request {
    /// The calling client.
    pub client: ClientId,
    /// The call.
    pub call: Call,
}

/// Why a line is refused.
#[derive(Clone, Copy, Debug, PartialEq, Eq)]
pub enum LineFault {
    /// It doesn't have the shape of a line.
    BadLine,
    /// A word that should be a path isn't one, for this reason.
    BadPath(PathFault),
    /// A word that should be data isn't.
    BadData,
    /// Out of memory.
    Memory,
}

impl<T: Drop> From<AllocFailed<T>> for LineFault {
    ghost from_gives = { λ _ fault. fault ≡ Memory };

    fn from(_fault: AllocFailed<T>) -> LineFault {
        LineFault::Memory
    }
}
