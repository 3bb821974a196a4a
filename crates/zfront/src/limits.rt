//! The limits of a front end for ZooKeeper's clients. They are this project's profile.
//!
//! # Why
//!
//! A request has at most 1 MiB, so 16 MiB always holds some. The connection whose bytes don't fit
//! is closed. To look for the largest would be code for a case that no honest client meets.

ghost use Rattle.std.specs.Prelude.{◌≡◌};
ghost use Rattle.zfront.specs.declared.limits.TheConstants.{MAX_KEPT};

use zjute::MAX_FRAME;

/// The most bytes of partial frames that are stored for all connections together.
pub const MAX_KEPT: usize = 16 * (MAX_FRAME as usize + 1);

/// The limit, as a number.
pub fn limit_is_a_number()
    ensures { MAX_KEPT ≡ 16777216 }
{}
