//! How many passes a ticket word has at most, and how many bits a halt word has.

ghost use Rattle.std.specs.Prelude.{◌≡◌};
ghost use Rattle.zchannels.specs.declared.limits.TheConstants.{LAST_BIT, MAX_PASSES};

use zprotocol::MAX_SERVERS;

/// The maximum number of passes of one ticket word. Each draws at most 2^32 numbers, so the word
/// never wraps.
pub const MAX_PASSES: usize = 32;

/// The last bit of a halt word: that of the last server. The first is 0.
pub const LAST_BIT: u32 = MAX_SERVERS as u32;

/// The limits are these numbers.
pub fn limits_are_numbers()
    ensures passes { MAX_PASSES ≡ 32 }
    ensures last_bit { LAST_BIT ≡ 16 }
{}
