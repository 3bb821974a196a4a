//! What a seat of a halt knows, and the rule of the halt word.
ghost use Rattle.std.specs.Prelude.{◌≡◌, ◌-◌, bit_or};
ghost use Rattle.zchannels.specs.Raised.{known, Raised, Within};

use atomic_table::{Play, Split, TableRule};

/// What a seat knows. It is never constructed.
pub struct Known {
    /// How many parts of the halt it holds. A seat without parts knows no bit.
    pub parts: u64,
    /// The bits that it has set or seen.
    pub bits: u64,
}

/// The rule: the bits that seats know are the bits that are set.
pub struct Stays;

impl TableRule<(), Known, u64> for Stays {
    ghost use Rattle.zchannels.specs.Raised.{known, Raised};

    ghost holds = { λ n s. Raised n s };

    ghost first = { λ n. known n 0 };
}

/// A step of `set`: the seat knows the bits that it sets.
pub struct Sets;

impl Play<(), Known> for Sets {
    ghost use Rattle.std.specs.Prelude.{◌≡◌, bit_or};
    ghost use Rattle.zchannels.specs.Raised.{known};

    ghost then = { λ s v found w. w ≡ (known v.0.parts (bit_or v.0.bits s.first), v.1) };
}

/// A step of `is_set`: the seat knows the bits that it found, among them those that it knew.
pub struct Sees;

impl Play<(), Known> for Sees {
    ghost use Rattle.std.specs.Prelude.{◌≡◌};
    ghost use Rattle.zchannels.specs.Raised.{known, Within};

    ghost then = { λ s v found w. (w ≡ (known v.0.parts found, v.1)) × Within v.0.bits found };
}

/// A new seat has one part, and knows nothing.
pub struct Seats;

impl Split<Known> for Seats {
    ghost use Rattle.std.specs.Prelude.{◌-◌};
    ghost use Rattle.zchannels.specs.Raised.{known};

    ghost left = { λ v. known (v.parts - 1) v.bits };

    ghost right = { λ v. known 1 0 };
}
