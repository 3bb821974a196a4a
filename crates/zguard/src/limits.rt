//! The limits of a guard: this project's own profile.

ghost use Rattle.std.specs.Prelude.{◌≡◌};
ghost use Rattle.zguard.specs.declared.limits.TheConstants.{MAX_KEPT};

/// The most bytes that are stored of a frame of a stranger. A connect request, and an auth that
/// names a login, are shorter.
pub const MAX_KEPT: usize = 4096;

/// The number of an auth (`ZooDefs.OpCode`).
pub const AUTH: i32 = 100;

/// The limits, as numbers.
pub fn limits_are_numbers()
    ensures kept { MAX_KEPT ≡ 4096 }
{}
