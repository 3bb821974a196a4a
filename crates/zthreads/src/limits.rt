//! The limits of an endpoint.

ghost use Rattle.std.specs.Prelude.{◌≡◌};
ghost use Rattle.zthreads.specs.Endpoints.{AreKeptBelow, AreWholeBelow};
ghost use Rattle.zthreads.specs.declared.limits.TheConstants.{MAX_EVENTS};

/// The maximum number of events of a trace.
pub const MAX_EVENTS: usize = 1_000_000;

/// The limits are these numbers. No event for which there is memory cuts a shorter trace, before
/// the last timestamp. Before that no event is lost.
pub fn limits_are_numbers()
    ensures events { MAX_EVENTS ≡ 1000000 }
    ensures whole { AreWholeBelow 1000000 4611686018427387903 }
    ensures kept { AreKeptBelow 4611686018427387903 }
{}
