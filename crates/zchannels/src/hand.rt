//! What a pass knows, and the rule of the ticket word.
ghost use Rattle.std.specs.Prelude.{◌≡◌, ◌++◌, [], ◌∷◌, ◌-◌};
ghost use Rattle.zchannels.specs.Given.{hand, Given};

use atomic_table::{Join, Play, Split, TableRule};
use std::collections::LinkedList;

/// What a pass knows. It is never constructed.
pub struct Hand {
    /// How many parts it holds. All parts together know the whole.
    pub parts: u64,
    /// The tickets that it has drawn, oldest first.
    pub drawn: LinkedList<u64>,
}

/// The rule: the tickets that the passes hold are the numbers below the word, each once.
pub struct Fair;

impl TableRule<(), Hand, u64> for Fair {
    ghost use Rattle.std.specs.Prelude.{[]};
    ghost use Rattle.zchannels.specs.Given.{hand, Given};

    ghost holds = { λ n s. Given n s };

    ghost first = { λ n. hand n [] };
}

/// One step of `draw`: the number that it found is the pass's next ticket.
pub struct Draws;

impl Play<(), Hand> for Draws {
    ghost use Rattle.std.specs.Prelude.{◌≡◌, ◌++◌, [], ◌∷◌};
    ghost use Rattle.zchannels.specs.Given.{hand};

    ghost then = { λ s v found w. w ≡ (hand v.0.parts (v.0.drawn ++ found ∷ []), v.1) };
}

/// Splits off one part, with no tickets, or joins two passes into one.
pub struct Deals;

impl Split<Hand> for Deals {
    ghost use Rattle.std.specs.Prelude.{◌-◌, []};
    ghost use Rattle.zchannels.specs.Given.{hand};

    ghost left = { λ v. hand (v.parts - 1) v.drawn };

    ghost right = { λ v. hand 1 [] };
}

impl Join<Hand> for Deals {
    ghost use Rattle.std.specs.Prelude.{◌+◌, ◌++◌, []};
    ghost use Rattle.zchannels.specs.Given.{hand};

    ghost both = { λ v w. hand (v.parts + w.parts) (w.drawn ++ v.drawn) };

    ghost spent = { hand 0 [] };
}
