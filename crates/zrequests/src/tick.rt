//! How long a tick is.

ghost use Rattle.std.specs.Prelude.{◌≡◌, ◌<◌, IfNone, IfSome};

use std::marker::Model;

/// The length of a tick, in milliseconds: at least 1.
#[derive(Clone, Copy, Debug, PartialEq, Eq)]
pub struct TickLength {
    millis: u32,
}

impl Model for TickLength {
    ghost use Rattle.std.specs.Prelude.{ℕ, ◌<◌};

    ghost Value = { ℕ };

    ghost view = { λ tick. tick.millis };

    ghost invariant = { λ tick. 0 < tick.millis };

    ghost inverse = { λ n. record { millis = n } };
}

impl TickLength {
    /// Returns a tick of this many milliseconds; `None` for 0.
    pub fn new(millis: u32) -> Option<TickLength>
        ensures tick { IfSome result (λ tick. (tick ≡ millis) × (0 < millis)) }
        ensures none { IfNone result (millis ≡ 0) }
    {
        if millis > 0 {
            Some(TickLength { millis })
        } else {
            None
        }
    }

    /// Returns the number of milliseconds.
    pub fn millis(self) -> u32
        ensures same { result ≡ self }
        ensures some { 0 < result }
    {
        self.millis
    }
}
