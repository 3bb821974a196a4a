//! The zxid: the number of a change.

ghost use Rattle.std.specs.Prelude.{◌≡◌, ◌+◌, ◌<◌};
ghost use Rattle.ztree.specs.declared.limits.TheConstants.{ZXID_BOUND};

use std::marker::Model;

/// The zxid: the number of a change, counted from 1; 0 is before the first change. The source is
/// the ZooKeeper Programmer's Guide, "Time in ZooKeeper". A plain counter is this project's
/// profile.
#[derive(Clone, Copy, Debug, PartialEq, Eq, PartialOrd, Ord)]
pub struct Zxid {
    number: u64,
}

impl Model for Zxid {
    ghost use Rattle.std.specs.Prelude.{ℕ};

    ghost Value = { ℕ };

    ghost view = { λ zxid. zxid.number };

    ghost inverse = { λ n. record { number = n } };
}

impl Zxid {
    /// Returns the zxid with this number.
    pub fn new(number: u64) -> Zxid
        ensures { result ≡ number }
    {
        Zxid { number }
    }

    /// Returns its number.
    pub fn number(self) -> u64
        ensures { result ≡ self }
    {
        self.number
    }

    /// Returns the zxid of the change right after it.
    pub fn next(self) -> Zxid
        requires { self + 1 < ZXID_BOUND }
        ensures { result ≡ self + 1 }
    {
        Zxid {
            number: self.number + 1,
        }
    }
}
