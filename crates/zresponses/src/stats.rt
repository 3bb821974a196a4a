//! The stat in an answer.

ghost use Rattle.std.specs.Prelude.{◌≡◌};
ghost use Rattle.zresponses.specs.Stats as reported;

use crate::clock::{Clock, Now};
use crate::numbers::{long_of, told};
use zcalls::Create;
use ztree::Stat;

/// Returns the stat of a node that a create has just made, at the zxid of that create.
pub fn made_stat(at: &Now, create: &Create) -> Stat
    ensures { result ≡ reported.made_stat at.now create.now }
{
    let term = create.kind.lifetime.term();
    Stat {
        czxid: at.zxid,
        mzxid: at.zxid,
        pzxid: at.zxid,
        ctime: at.time,
        mtime: at.time,
        version: 0,
        cversion: 0,
        aversion: 0,
        owner: term.shown_owner(create.kind.lifetime.owner()),
        length: create.bytes.as_slice().len() as u64,
        children: 0,
    }
}

/// Returns a stat for a client: times in milliseconds since 1970, and each number in 32 or 64 bits,
/// as in zookeeper.jute.
pub fn stat_reported(clock: &Clock, stat: &Stat) -> zjute::StatRecord
    ensures { result ≡ reported.stat_reported clock.now stat.now }
{
    zjute::StatRecord {
        czxid: told(clock, stat.czxid),
        mzxid: told(clock, stat.mzxid),
        ctime: time_of(clock, stat.ctime),
        mtime: time_of(clock, stat.mtime),
        version: int_of(stat.version),
        cversion: int_of(stat.cversion),
        aversion: int_of(stat.aversion),
        ephemeral_owner: long_of(stat.owner % (1 << 63)),
        data_length: int_of(stat.length),
        num_children: int_of(stat.children),
        pzxid: told(clock, stat.pzxid),
    }
}

// Returns the time of a tick.
fn time_of(clock: &Clock, ticks: u64) -> i64
    ensures { result ≡ reported.long_of (reported.millis_at clock.now ticks) }
{
    let since = ticks.wrapping_mul(u64::from(clock.terms.tick().millis()));
    clock.started.wrapping_add(since).cast_signed()
}

// Returns the low 32 bits of a number.
fn int_of(number: u64) -> i32
    ensures { result ≡ reported.int_of number }
{
    ((number % 4_294_967_296) as u32).cast_signed()
}
