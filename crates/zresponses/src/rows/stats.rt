//! Stats.

ghost use Rattle.std.specs.Prelude.{◌≡◌, pos, negsuc};
ghost use Rattle.ztree.specs.support.Samples.{some_stat};
ghost use Rattle.zresponses.specs.Stats.{int_of, long_of, millis_at, stat_reported, made_stat};
ghost use Rattle.zresponses.specs.support.Samples.{clock, now, reported_stat, create_b, timed_b, container_b};
ghost use Rattle.zresponses.specs.support.Samples.{reported_of_b, reported_of_timed};

/// Numbers in 32 and in 64 bits.
pub fn numbers_in_bits()
    ensures small { int_of 6 ≡ pos 6 }
    ensures greatest { int_of 2147483647 ≡ pos 2147483647 }
    ensures sign { int_of 2147483648 ≡ negsuc 2147483647 }
    ensures last { int_of 4294967295 ≡ negsuc 0 }
    ensures around { int_of 4294967297 ≡ pos 1 }
    ensures zxid { long_of 1099511627775 ≡ pos 1099511627775 }
    ensures time { millis_at clock 21 ≡ 1042000 }
{}

/// The eleven fields of a stat. A node with a TTL or a container has no owner.
pub fn stats_that_are_reported()
    ensures stat { stat_reported clock some_stat ≡ reported_stat }
    ensures made { stat_reported clock (made_stat now create_b) ≡ reported_of_b }
    ensures timed { stat_reported clock (made_stat now timed_b) ≡ reported_of_timed }
    ensures container { stat_reported clock (made_stat now container_b) ≡ reported_of_timed }
{}
