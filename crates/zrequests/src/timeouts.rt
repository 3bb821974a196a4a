//! Session timeouts, in milliseconds and in ticks.
//!
//! # Why
//!
//! The client gets what the tree granted. Sessions are renewed and expire at ticks only, so one that
//! is renewed just before a tick would lose almost a whole tick. Therefore the server renews it at
//! the next tick, too (`zconnections::attachments`).

ghost use Rattle.std.specs.Prelude.{◌≡◌};
ghost use Rattle.zrequests.specs.Timeouts as timeouts;

use crate::tick::TickLength;

/// Returns the ticks to ask for, for a timeout of `millis` milliseconds. A part of a tick counts as
/// one. The service grants the nearest number of ticks in its range.
pub fn ticks_asked(tick: TickLength, millis: i32) -> u64
    ensures { result ≡ timeouts.ticks_asked tick millis }
{
    if millis < 0 {
        return 0;
    }
    (millis as u64).div_ceil(u64::from(tick.millis()))
}

/// Returns the milliseconds for the client, for the ticks granted: at most what 32 bits hold.
pub fn millis_reported(tick: TickLength, ticks: u64) -> i32
    ensures { result ≡ timeouts.millis_reported tick ticks }
{
    let millis = ticks.saturating_mul(u64::from(tick.millis()));
    millis.min(2_147_483_647) as i32
}
