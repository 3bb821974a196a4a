//! Why a request makes no call.

ghost use Rattle.std.specs.Prelude.{◌≡◌};

use std::alloc::{AllocError, AllocFailed};
use zalloc::Memory;
use zjute::Code;

/// Why a request makes no call.
#[derive(Clone, Copy, Debug, PartialEq, Eq)]
pub enum Unasked {
    /// It is refused at once, with this code.
    Refused(Code),
    /// Out of memory. It says nothing about the request.
    Memory,
}

impl From<Memory> for Unasked {
    ghost use Rattle.zrequests.specs.declared.fault.Unasked.TheVariants as why;

    ghost from_gives = { λ _ fault. fault ≡ why.Memory };

    fn from(_error: Memory) -> Unasked {
        Unasked::Memory
    }
}

impl From<AllocError> for Unasked {
    ghost use Rattle.zrequests.specs.declared.fault.Unasked.TheVariants as why;

    ghost from_gives = { λ _ fault. fault ≡ why.Memory };

    fn from(_error: AllocError) -> Unasked {
        Unasked::Memory
    }
}

impl<T: Drop> From<AllocFailed<T>> for Unasked {
    ghost use Rattle.zrequests.specs.declared.fault.Unasked.TheVariants as why;

    ghost from_gives = { λ _ fault. fault ≡ why.Memory };

    fn from(_error: AllocFailed<T>) -> Unasked {
        Unasked::Memory
    }
}
