//! Numbers as clients see them.

ghost use Rattle.std.specs.Prelude.{◌≡◌};
ghost use Rattle.zresponses.specs.Stats as reported;

use crate::clock::Clock;
use ztree::Zxid;

/// Returns the low 64 bits of a number, as a `long` of zookeeper.jute.
pub(crate) fn long_of(number: u64) -> i64
    ensures { result ≡ reported.long_of number }
{
    number.cast_signed()
}

/// Returns a zxid of the tree as clients are told it.
pub fn told(clock: &Clock, zxid: Zxid) -> i64
    ensures { result ≡ reported.told clock.now.base zxid }
{
    clock.base.wrapping_add(zxid.number()).cast_signed()
}
