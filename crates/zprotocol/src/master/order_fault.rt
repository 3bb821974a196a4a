//! Why an order is refused.

/// Why the master refuses an order. It is the first that holds, in the order of the master table's
/// tests. A refused order changes nothing.
#[derive(Clone, Copy, Debug, PartialEq, Eq)]
pub enum OrderFault {
    /// The server that is to join was a member of the chain before, or it failed as a spare. No
    /// number is used again.
    Used,
    /// The server that is to leave isn't a member of the chain.
    NotMember,
    /// A server is joining. Where it is the only member, a join is refused for `Lost`.
    Joining,
    /// The chain has no members, so no server can join.
    NoChain,
    /// The only member of the chain is joining, so no server can hand the state to another.
    Lost,
    /// The chain has only one member, which can't leave.
    Last,
    /// A member was ordered to leave, and its Gone hasn't reached the master.
    Retiring,
}

/// Why a server can't join: `Used`, `Joining`, `NoChain`, `Lost` or `Retiring`.
pub type JoinFault = OrderFault;

/// Why a member can't be ordered to leave: `NotMember`, `Joining`, `Last` or `Retiring`.
pub type RetireFault = OrderFault;
