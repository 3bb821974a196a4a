//! The rule of the console's channel. One end sends, and one receives. What was sent is what was
//! received, and then what the channel holds.

ghost use Rattle.std.specs.Prelude.{◌≡◌, true, false, [], ◌∷◌, ◌++◌};
ghost use Rattle.zchannels.specs.Orders.{log, InOrder};

use crossbeam_channel::protocol::{Join, Lesson, Outcome, Protocol, Split};
use std::collections::LinkedList;
use zprotocol::Order;

/// What an end may do, and what it has sent or received. It is never constructed.
pub struct Log {
    pub puts: bool,
    pub takes: bool,
    pub put: LinkedList<Order>,
    pub taken: LinkedList<Order>,
}

/// First in, first out.
pub struct Fifo;

impl Protocol<Order, Log> for Fifo {
    ghost use Rattle.std.specs.Prelude.{true, []};
    ghost use Rattle.zchannels.specs.Orders.{log, InOrder};

    ghost holds = { InOrder };

    ghost first = { log true true [] [] };
}

/// The two ends' parts.
pub struct Roles;

impl Split<Log> for Roles {
    ghost use Rattle.std.specs.Prelude.{true, false, []};
    ghost use Rattle.zchannels.specs.Orders.{log};

    ghost left = { λ v. log true false v.put [] };

    ghost right = { λ v. log false true [] v.taken };
}

impl Join<Log> for Roles {
    ghost use Rattle.std.specs.Prelude.{true, false, []};
    ghost use Rattle.zchannels.specs.Orders.{log};

    ghost both = { λ v w. log true true v.put w.taken };

    ghost spent = { log false false [] [] };
}

/// One more order is sent.
pub struct Puts;

impl Outcome<Order, Log> for Puts {
    ghost then = { λ v x w. w ≡ log v.puts v.takes (v.put ++ x ∷ []) v.taken };
}

impl Lesson<Order, Log> for Puts {
    ghost fact = { λ v items. Unit {0} };
}

/// One more order is received.
pub struct Takes;

impl Outcome<Order, Log> for Takes {
    ghost then = { λ v x w. w ≡ log v.puts v.takes v.put (v.taken ++ x ∷ []) };
}

impl Lesson<Order, Log> for Takes {
    ghost fact = { λ v items. Unit {0} };
}

/// What follows from both ends.
pub struct Law;

impl Lesson<Order, Log> for Law {
    ghost fact = { λ v items. v.put ≡ v.taken ++ items };
}
