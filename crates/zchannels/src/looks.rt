//! What one load of a halt found.
//!
//! # Why
//!
//! A thread passes on one look for each message that it receives. Nothing copies a look, and the
//! receiving call consumes it. So a thread that tests another bit isn't proved.
ghost use Rattle.std.specs.Prelude.{◌≡◌, ◌≤◌, IsTrue, ◌↔◌};
ghost use Rattle.zchannels.specs.declared.limits.TheConstants.{LAST_BIT};
ghost use Rattle.zchannels.specs.HaltSeats.{Found, found_by};

/// The bits that one load found. Only `Halt::look` makes one, and nothing copies it.
/// So a function that consumes one has a look of its own.
#[derive(Drop)]
pub struct Look {
    found: u64,
}

impl Look {
    // Returns the look whose load found this word.
    pub(crate) fn of(found: u64) -> Look
        ensures { found_by result ≡ found }
    {
        Look { found }
    }

    /// Returns whether bit `s` was set.
    pub fn has(&self, s: u32) -> bool
        requires bit { s ≤ LAST_BIT }
        ensures { IsTrue result ↔ Found self.now s }
    {
        (self.found >> s) & 1 == 1
    }
}
