//! Why a call can't be invoked.

/// Why a call can't be invoked. `Busy` is tested first, then `Exhausted`; `Memory` is returned
/// where an allocation is refused. A refused call changes nothing.
#[derive(Clone, Copy, Debug, PartialEq, Eq)]
pub enum BeginFault {
    /// Another call of the client is outstanding.
    Busy,
    /// Out of memory.
    Memory,
    /// The client has used up its call numbers.
    Exhausted,
}
