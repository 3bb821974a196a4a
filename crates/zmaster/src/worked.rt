//! A worked example of the master's limits. The function does nothing.

ghost use Rattle.std.specs.Prelude.{◌≡◌};
ghost use Rattle.zmaster.specs.declared.limits.TheConstants.{MAX_POSTS};

/// The limits, as numbers.
pub fn limits_are_numbers()
    ensures { MAX_POSTS ≡ 40 }
{}
