//! The limits of records: this project's own profile.

ghost use Rattle.std.specs.Prelude.{◌≡◌};
ghost use Rattle.zdaemon.specs.declared.pipe.limits.TheConstants.{BLOCK, MAX_CAME, MAX_LOGINS, MAX_PIECE};

/// The most bytes of a connection in one record.
pub const MAX_CAME: u32 = 65_536;

/// The most bytes of a chunk: all that its length can say.
pub const MAX_PIECE: u32 = 0xFFFF_FFFF;

/// The most bytes of the text of logins.
pub const MAX_LOGINS: u32 = 1_048_576;

/// The bytes that are read at once.
pub const BLOCK: usize = 65_536;

/// The limits, as numbers.
pub fn limits_are_numbers()
    ensures came { MAX_CAME ≡ 65536 }
    ensures piece { MAX_PIECE ≡ 4294967295 }
    ensures logins { MAX_LOGINS ≡ 1048576 }
    ensures block { BLOCK ≡ 65536 }
{}
