//! The base of the zxids that a server in memory tells.

ghost use Rattle.std.specs.Prelude.{◌≡◌};
ghost use Rattle.zdaemon.specs.Bases as table;

/// Returns the base of a start at this time, in milliseconds since 1970.
pub(crate) fn base_at(now: u64) -> u64
    ensures { result ≡ table.base_at now }
{
    now.min(4_398_046_511_103) * 1_048_576
}
