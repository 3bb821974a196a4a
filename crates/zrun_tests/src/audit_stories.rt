//! Runs of one server and one client, as tables.

/// What a process did: it took from the link of the process of that number, and so on.
#[derive(Clone, Copy)]
pub enum Deed {
    Takes(u8),
    Creates,
    Gets,
    Retries,
    Joins(u8),
    Retires,
    Leaves,
    Halts,
}

/// A process by its number (0 the master, 1 the server, 2 the client, 3 a server that never did
/// anything), the stamp of what it did, and that.
pub type Step = (u8, u64, Deed);

/// What the client's caller saw: that a call began, or its answer; a get shows the change that made
/// the node.
#[derive(Clone, Copy, PartialEq, Eq)]
pub enum Seen {
    Create,
    Created,
    Get,
    Reported(u64),
}

/// A create and a get, each answered.
pub const HONEST: &[Step] = &[
    (2, 1, Deed::Creates),
    (1, 2, Deed::Takes(2)),
    (2, 3, Deed::Takes(1)),
    (2, 4, Deed::Gets),
    (1, 5, Deed::Takes(2)),
    (2, 6, Deed::Takes(1)),
];

/// What its caller saw.
pub const SEEN: &[Seen] = &[Seen::Create, Seen::Created, Seen::Get, Seen::Reported(1)];

/// The same with the first stamp that there is, and the last.
pub const BORDERS: &[Step] = &[
    (2, 0, Deed::Creates),
    (1, 2, Deed::Takes(2)),
    (2, 3, Deed::Takes(1)),
    (2, 4, Deed::Gets),
    (1, 5, Deed::Takes(2)),
    (2, (1 << 62) - 1, Deed::Takes(1)),
];

/// The server's second stamp is its first.
pub const ONE_STAMP_TWICE: &[Step] = &[
    (2, 1, Deed::Creates),
    (1, 2, Deed::Takes(2)),
    (2, 3, Deed::Takes(1)),
    (2, 4, Deed::Gets),
    (1, 2, Deed::Takes(2)),
    (2, 6, Deed::Takes(1)),
];

/// The client takes its answer before the server has put it.
pub const TOO_EARLY: &[Step] = &[
    (2, 1, Deed::Creates),
    (2, 2, Deed::Takes(1)),
    (1, 3, Deed::Takes(2)),
];

/// The server takes from a server that never did anything.
pub const FROM_NOBODY: &[Step] = &[(1, 1, Deed::Takes(3))];

/// The server begins a call.
pub const SERVER_CALLS: &[Step] = &[(1, 1, Deed::Creates)];

/// The client asks again where it waits for nothing.
pub const IDLE_RETRY: &[Step] = &[(2, 1, Deed::Retries)];

/// The master refuses a join, and the server is halted: both where they belong.
pub const REFUSED_JOIN: &[Step] = &[(0, 1, Deed::Joins(1)), (1, 2, Deed::Halts)];

/// The master keeps its last server, and the server is halted: both where they belong.
pub const KEPT: &[Step] = &[(0, 1, Deed::Retires), (1, 2, Deed::Halts)];

/// The server leaves without an order.
pub const LEAVES_UNASKED: &[Step] = &[(1, 1, Deed::Leaves)];

/// The server takes on after it was halted.
pub const AFTER_THE_HALT: &[Step] = &[
    (2, 1, Deed::Creates),
    (1, 2, Deed::Halts),
    (1, 3, Deed::Takes(2)),
];
