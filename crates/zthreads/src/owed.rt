//! What the master's thread has still to do for the console.

ghost use Rattle.std.specs.Prelude.{◌≡◌};

use zchannels::outcome::OrderOutcome;
use zprotocol::Order;

/// What the master's thread has to do for the console before it receives another order.
#[derive(Clone, Copy)]
pub(crate) enum Owed {
    /// Nothing.
    Nothing,
    /// It has to follow this order.
    Deed(Order),
    /// It has to send this outcome.
    Word(OrderOutcome),
}

impl Owed {
    ghost use Rattle.zthreads.specs.Outcomes.{owes};

    /// Returns whether there is anything to do.
    pub(crate) fn is_some(&self) -> bool
        ensures { result ≡ owes self.now }
    {
        match self {
            Owed::Nothing => false,
            _ => true,
        }
    }
}
